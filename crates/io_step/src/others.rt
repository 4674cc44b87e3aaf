//! The instructions that name no subchannel.

ghost use Rattle.std.specs.Prelude.{◌≡◌, ◌≤◌, ◌<◌, ◌+◌, Ok, Err, IfOk, IfErr, OnErr, OnOk, Some, length, map, take};
ghost use Rattle.zbits.specs.Layout.{word_of};
ghost use Rattle.zbits.specs.Words.{bytes_of_words};
ghost use Rattle.scsw_irb.specs.CodeTable.{code_tables};
ghost use Rattle.io_step.specs.Operands.{from_storage};
ghost use Rattle.chan_events.specs.declared.reply.Reply.TheVariants as reply;
ghost use Rattle.channel_reports.specs.Queue.{WaitingReports};
ghost use Rattle.interruptions.specs.Requests.{WaitingRequests};
ghost use Rattle.machine_model.specs.OtherSteps as spec;
ghost use Rattle.storage_keys.specs.Storage.{Contents, operand_stored};

use crate::operands::{WORD, check_operand};
use chan_events::reply::{PATH_STATUS_BYTES, report_word};
use chan_model::answer::ConditionCode;
use chan_model::fault::Fault;
use chan_model::names::Cpu;
use chan_model::paths::PathSet;
use channel_reports::Reports;
use interruptions::Pending;
use scsw_irb::code::IntCode;
use scsw_irb::crw::{CRW_BYTES, Crw};
use storage_keys::MainStorage;
use zbits::{be_bytes, field};

/// The real address of the I/O-interruption code, where TEST PENDING INTERRUPTION stores it if its operand has address
/// 0.
const CODE: u32 = 184;

/// How many bytes of the code are stored there: its three words.
const LONG_CODE_BYTES: usize = 12;

/// How many bytes of the code are stored at an operand: the subsystem-identification word and the interruption
/// parameter.
const SHORT_CODE_BYTES: usize = 8;

/// The boundary on which the operand of STORE CHANNEL PATH STATUS must be.
const PATH_STATUS_BOUNDARY: u32 = 32;

/// For each channel-path identifier, whether the channel path is in the set.
pub type PathTable = [bool; 256];

/// What is known of the channel paths, by identifier.
#[derive(Clone, Copy)]
pub struct ChannelPaths {
    /// It is configured and not down.
    pub up: PathTable,
    /// It is engaged in a transfer: its bit that STORE CHANNEL PATH STATUS stores is one.
    pub engaged: PathTable,
}

/// Whether the interruption code may be stored at an address.
fn check_code<M: MainStorage>(storage: &M, cpu: Cpu, address: u32) -> Result<(), Fault>
    ensures checked { result ≡ from_storage (spec.code_check (M.contents storage.now) cpu address) }
    ensures inside { OnOk result (spec.code_address address + spec.code_size address ≤ length (M.contents storage.now).bytes) }
{
    if address == 0 {
        check_operand(storage, cpu, CODE, LONG_CODE_BYTES, WORD)
    } else {
        check_operand(storage, cpu, address, SHORT_CODE_BYTES, WORD)
    }
}

/// The three words of an interruption code are stored where an interruption stores them.
fn store_long_code<M: MainStorage>(storage: &mut M, cpu: Cpu, code: IntCode)
    requires inside { 196 ≤ length (M.contents storage.old).bytes }
    ensures stored { M.contents storage.new ≡ operand_stored (M.contents storage.old) cpu 184 (bytes_of_words (map word_of (code_tables code))) }
    ensures lender { M.lender storage.new ≡ M.lender storage.old }
{
    let image = be_bytes::<LONG_CODE_BYTES>(&code.words());
    storage.store_operand(cpu.number(), CODE, &image);
}

/// The first two words of an interruption code are stored at an address.
fn store_short_code<M: MainStorage>(storage: &mut M, cpu: Cpu, address: u32, code: IntCode)
    requires inside { address + 8 ≤ length (M.contents storage.old).bytes }
    ensures stored { M.contents storage.new ≡ operand_stored (M.contents storage.old) cpu address (bytes_of_words (take 2 (map word_of (code_tables code)))) }
    ensures lender { M.lender storage.new ≡ M.lender storage.old }
{
    let [identification, parameter, _] = code.words();
    let image = be_bytes::<SHORT_CODE_BYTES>(&[identification, parameter]);
    storage.store_operand(cpu.number(), address, &image);
}

/// The interruption code is stored at an address.
fn store_code<M: MainStorage>(storage: &mut M, cpu: Cpu, address: u32, code: IntCode)
    requires inside { spec.code_address address + spec.code_size address ≤ length (M.contents storage.old).bytes }
    ensures stored { M.contents storage.new ≡ spec.code_stored (M.contents storage.old) cpu address (Some code) }
    ensures lender { M.lender storage.new ≡ M.lender storage.old }
{
    if address == 0 {
        store_long_code(storage, cpu, code);
    } else {
        store_short_code(storage, cpu, address, code);
    }
}

/// TEST PENDING INTERRUPTION with a mask of subclasses, the byte of control register 6: hexadecimal 80 is subclass 0.
/// Two words at the address, which must be on a word boundary, or three at real 184 where it is 0, must be in storage
/// even where nothing is stored. None, code 0, where no enabled request waits; otherwise the request is stored and
/// taken out, code 1.
pub fn tpi<M: MainStorage>(
    storage: &mut M,
    pending: &mut Pending,
    cpu: Cpu,
    mask: u8,
    address: u32,
) -> Result<Option<IntCode>, Fault>
    ensures done { IfOk result (λ found. (queue : WaitingReports) → spec.tpi_result (spec.lent_whole (M.contents storage.old) pending.old queue) cpu mask address ≡
        spec.answers (reply.Interruption found) (spec.lent_whole (M.contents storage.new) pending.new queue)) }
    ensures refused { IfErr result (λ f. (queue : WaitingReports) → spec.tpi_result (spec.lent_whole (M.contents storage.old) pending.old queue) cpu mask address ≡ Err f) }
    ensures storage_kept { OnErr result (M.contents storage.new ≡ M.contents storage.old) }
    ensures pending_kept { OnErr result (pending.new ≡ pending.old) }
    ensures lender { M.lender storage.new ≡ M.lender storage.old }
{
    check_code(storage, cpu, address)?;
    let found = pending.tpi(mask);
    if let Some(code) = found {
        store_code(storage, cpu, address, code);
    }
    Ok(found)
}

/// STORE CHANNEL REPORT WORD at an address on a word boundary: the oldest report is taken out. None, code 1, where none
/// waits, and then zero is stored.
pub fn stcrw<M: MainStorage>(
    storage: &mut M,
    reports: &mut Reports,
    cpu: Cpu,
    address: u32,
) -> Result<Option<Crw>, Fault>
    ensures done { IfOk result (λ report. (waiting : WaitingRequests) → spec.stcrw_result (spec.lent_whole (M.contents storage.old) waiting reports.old) cpu address ≡
        spec.answers (reply.ChannelReport report) (spec.lent_whole (M.contents storage.new) waiting reports.new)) }
    ensures refused { IfErr result (λ f. (waiting : WaitingRequests) → spec.stcrw_result (spec.lent_whole (M.contents storage.old) waiting reports.old) cpu address ≡ Err f) }
    ensures storage_kept { OnErr result (M.contents storage.new ≡ M.contents storage.old) }
    ensures reports_kept { OnErr result (reports.new ≡ reports.old) }
    ensures lender { M.lender storage.new ≡ M.lender storage.old }
{
    check_operand(storage, cpu, address, CRW_BYTES, WORD)?;
    let report = reports.stcrw();
    let image = be_bytes::<CRW_BYTES>(&[report_word(report)]);
    storage.store_operand(cpu.number(), address, &image);
    Ok(report)
}

/// RESET CHANNEL PATH of the path that the last byte of general register 1 names; its other bits must be zero. `up` has
/// the channel paths that are configured and not down.
pub fn rchp(reports: &mut Reports, up: &PathTable, path: u32) -> Result<ConditionCode, Fault>
    ensures done { IfOk result (λ code. (storage : Contents) (waiting : WaitingRequests) → spec.rchp_result (spec.lent_whole storage waiting reports.old) up.now path ≡
        spec.answers (reply.PathReset code) (spec.lent_whole storage waiting reports.new)) }
    ensures refused { IfErr result (λ f. (storage : Contents) (waiting : WaitingRequests) → spec.rchp_result (spec.lent_whole storage waiting reports.old) up.now path ≡ Err f) }
    ensures kept { OnErr result (reports.new ≡ reports.old) }
{
    if field(path, 0, 23) != 0 {
        return Err(Fault::Operand);
    }
    let named = field(path, 24, 31) as u8;
    Ok(reports.rchp(named, up[usize::from(named)]))
}

/// Eight channel paths, the first leftmost.
fn engaged_byte(engaged: &PathTable, index: usize) -> u8
    requires { index < 32 }
    ensures { result ≡ spec.engaged_byte engaged.now index }
{
    let mut set = PathSet::none();
    for path in PathSet::all().each_path() {
        set.set(path, engaged[8 * index + path.index()]);
    }
    set.mask()
}

/// The bytes of STORE CHANNEL PATH STATUS.
pub fn engaged_bytes(engaged: &PathTable) -> [u8; PATH_STATUS_BYTES]
    ensures { result ≡ spec.engaged_bytes engaged.now 32 }
{
    let mut image = [0; PATH_STATUS_BYTES];
    for index in 0..PATH_STATUS_BYTES {
        image[index] = engaged_byte(engaged, index);
    }
    image
}

/// STORE CHANNEL PATH STATUS at an address on a boundary of 32 bytes. `engaged` has the channel paths whose bit is one.
/// The bytes that were stored.
pub fn stcps<M: MainStorage>(
    storage: &mut M,
    engaged: &PathTable,
    cpu: Cpu,
    address: u32,
) -> Result<[u8; PATH_STATUS_BYTES], Fault>
    ensures done { IfOk result (λ stored. (waiting : WaitingRequests) (queue : WaitingReports) → spec.stcps_result (spec.lent_whole (M.contents storage.old) waiting queue) engaged.now cpu address ≡
        spec.answers (reply.Paths stored) (spec.lent_whole (M.contents storage.new) waiting queue)) }
    ensures refused { IfErr result (λ f. (waiting : WaitingRequests) (queue : WaitingReports) → spec.stcps_result (spec.lent_whole (M.contents storage.old) waiting queue) engaged.now cpu address ≡ Err f) }
    ensures kept { OnErr result (M.contents storage.new ≡ M.contents storage.old) }
    ensures lender { M.lender storage.new ≡ M.lender storage.old }
{
    check_operand(
        storage,
        cpu,
        address,
        PATH_STATUS_BYTES,
        PATH_STATUS_BOUNDARY,
    )?;
    let image = engaged_bytes(engaged);
    storage.store_operand(cpu.number(), address, &image);
    Ok(image)
}
