//! The markup of a page: the names of its elements and attributes, and what stands around them.

ghost use Rattle.std.specs.Prelude.{◌≡◌, ◌<◌, length};
ghost use Rattle.page_text.specs.Marks as spec;

/// An element of HTML or SVG.
#[derive(Clone, Copy, PartialEq, Eq)]
pub enum Tag {
    Html,
    Head,
    Meta,
    Title,
    Style,
    Body,
    Main,
    MainHeading,
    Heading,
    Paragraph,
    Break,
    Division,
    Span,
    Link,
    Details,
    Summary,
    Preformatted,
    Table,
    TableHead,
    TableBody,
    TableRow,
    HeadCell,
    Cell,
    Svg,
    Definitions,
    Marker,
    Shape,
    Group,
    Line,
    Rectangle,
    Text,
}

/// An attribute of an element.
#[derive(Clone, Copy, PartialEq, Eq)]
pub enum Attribute {
    Language,
    Charset,
    Name,
    Content,
    Class,
    Identifier,
    Target,
    Role,
    Label,
    Scope,
    TabIndex,
    ViewBox,
    Width,
    Height,
    X,
    Y,
    X1,
    Y1,
    X2,
    Y2,
    Outline,
    ReferenceX,
    ReferenceY,
    MarkerWidth,
    MarkerHeight,
    Orientation,
    MarkerEnd,
    Anchor,
}

/// A piece of markup.
#[derive(Clone, Copy, PartialEq, Eq)]
pub enum Mark {
    /// What a page begins with.
    Doctype,
    /// An element begins; its attributes follow.
    Begin(Tag),
    /// An attribute, up to its value.
    Attribute(Attribute),
    /// The value of an attribute ends.
    Quote,
    /// The attributes of an element end, and what it holds follows.
    Inside,
    /// An element ends.
    End(Tag),
}

impl Tag {
    /// The name that it is written with.
    pub fn name(self) -> &'static [u8]
        ensures name { result.now ≡ spec.tag_name self }
        ensures short { length result.now < 16 }
    {
        match self {
            Tag::Html => b"html",
            Tag::Head => b"head",
            Tag::Meta => b"meta",
            Tag::Title => b"title",
            Tag::Style => b"style",
            Tag::Body => b"body",
            Tag::Main => b"main",
            Tag::MainHeading => b"h1",
            Tag::Heading => b"h2",
            Tag::Paragraph => b"p",
            Tag::Break => b"br",
            Tag::Division => b"div",
            Tag::Span => b"span",
            Tag::Link => b"a",
            Tag::Details => b"details",
            Tag::Summary => b"summary",
            Tag::Preformatted => b"pre",
            Tag::Table => b"table",
            Tag::TableHead => b"thead",
            Tag::TableBody => b"tbody",
            Tag::TableRow => b"tr",
            Tag::HeadCell => b"th",
            Tag::Cell => b"td",
            Tag::Svg => b"svg",
            Tag::Definitions => b"defs",
            Tag::Marker => b"marker",
            Tag::Shape => b"path",
            Tag::Group => b"g",
            Tag::Line => b"line",
            Tag::Rectangle => b"rect",
            Tag::Text => b"text",
        }
    }
}

impl Attribute {
    /// The name that it is written with.
    pub fn name(self) -> &'static [u8]
        ensures name { result.now ≡ spec.attribute_name self }
        ensures short { length result.now < 16 }
    {
        match self {
            Attribute::Language => b"lang",
            Attribute::Charset => b"charset",
            Attribute::Name => b"name",
            Attribute::Content => b"content",
            Attribute::Class => b"class",
            Attribute::Identifier => b"id",
            Attribute::Target => b"href",
            Attribute::Role => b"role",
            Attribute::Label => b"aria-label",
            Attribute::Scope => b"scope",
            Attribute::TabIndex => b"tabindex",
            Attribute::ViewBox => b"viewBox",
            Attribute::Width => b"width",
            Attribute::Height => b"height",
            Attribute::X => b"x",
            Attribute::Y => b"y",
            Attribute::X1 => b"x1",
            Attribute::Y1 => b"y1",
            Attribute::X2 => b"x2",
            Attribute::Y2 => b"y2",
            Attribute::Outline => b"d",
            Attribute::ReferenceX => b"refX",
            Attribute::ReferenceY => b"refY",
            Attribute::MarkerWidth => b"markerWidth",
            Attribute::MarkerHeight => b"markerHeight",
            Attribute::Orientation => b"orient",
            Attribute::MarkerEnd => b"marker-end",
            Attribute::Anchor => b"text-anchor",
        }
    }
}
