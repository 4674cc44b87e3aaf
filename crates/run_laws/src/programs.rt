//! What is done for each program can be told, of every run.

ghost use Rattle.std.specs.Prelude.{List};
ghost use Rattle.chan_events.specs.declared.reply.Entry.{Entry};
ghost use Rattle.channel_config.specs.Lawful.{IsLawful};
ghost use Rattle.channel_config.specs.Setup.{Setup};
ghost use Rattle.machine_model.specs.State.{State, opening_of};
ghost use Rattle.machine_model.specs.Steps.{Run};
ghost use Rattle.run_laws.specs.ProgramTold.{AreProgramsTold};
ghost use Rattle.run_laws.specs.Tells.{AllTold};

use crate::states::{reset_numbers, setups, steps};
use ccw_walk::law as position_laws;
use data_move::law as moves;
use step_laws::walks;
use storage_keys::law as storage;

/// In each run of a lawful set-up what storage held after each entry can be told from the entries, and with it what was done for
/// the program that each subchannel offered last. The operation-request block of a START SUBCHANNEL with code 0 is its operand; an
/// offer is of the start that was accepted last, or of the program that was suspended, by a path of that start's logical-path
/// mask. Where that start is over (since the offer a START, HALT or CANCEL SUBCHANNEL was answered with code 0, or a TEST
/// SUBCHANNEL ended the suspended program) an Accept lets the device go; otherwise the program of that operation-request block
/// goes on: the block that is next is fetched, as storage holds it, and so on up to a command, which is sent, or a check or a
/// suspension, where the device is let go. Each command that is sent is the next of the program: after an End with device end it
/// is chained to exactly where one is next and nothing breaks the chain (unit check, unit exception, incorrect length, a check
/// that is kept, or a halt: one is specified after a HALT SUBCHANNEL with code 0, until a START, CLEAR or CANCEL SUBCHANNEL with
/// code 0, a TEST SUBCHANNEL that clears the functions, or a reset of the subsystem), and each Data and each End that is taken is
/// of the last command. Of a Data that is next the bytes move for which there is room at the next places: those of a read are
/// stored unless storage refuses them, and those that are given are copied; data is chained exactly where they use up the counts
/// so far; a check is kept where a block shows it, or where the next bytes can't be reached, fetched or stored, and then nothing
/// more is moved, fetched or sent. Where STORE SUBCHANNEL stands just before an entry that makes a status, and just after it, the
/// command address and the count that it shows then are those of that program: eight more than the address of the block whose fetch
/// was tried last, and the sum of the counts of the command's blocks less the bytes that were moved. They are those that it showed
/// before, of attention, where no program is at work or suspended, and where a start waits behind the program that ends; of a clear
/// they are zero (SA22-7832, chapters 14 to 16).
pub fn told_by_entries()
    ensures told { (setup : Setup) → IsLawful setup → (h : List Entry) (s : State) → Run (opening_of setup) h s → AreProgramsTold setup h }
{
    walks();
    setups();
    steps();
    reset_numbers();
    programs();
}

/// In each run from the opening of a lawful set-up, what is done for the program that a subchannel offered last can be told
/// from the opening on by what is seen: the offers, the signals that are taken and sent, the reports, and what storage holds in
/// each step. In each step each block and each indirect word that comes to the program is what storage holds at its address; a
/// command is sent exactly where a command came to the program, and it is that one; an Accept of a start that is not over goes
/// on with the program that was offered, and fetches its next block; of a Data that is the next as many bytes
/// are moved as there is room for at the next places: those of a read are stored, so that none is stored twice, unless a check
/// was kept before or storage refuses them, and those that the device absorbed of a write count; data is chained exactly where
/// bytes were moved that use up the counts so far, and no check was kept before; a chunk that is given is copied from the next
/// places, as many bytes as there is room for, or none where the transfer has stopped; an End chains a command exactly where by
/// the program one is next, nothing breaks the chain and no earlier End of the command was shown, and otherwise makes status;
/// and the command address of status that an Accept, a Data or an End makes is eight more than the address of the block whose
/// fetch was tried last, and its count the sum of the counts of the command's blocks less the bytes that were moved, but for the
/// last End of a program while a start waits, which leaves both. Status of a halt, of an interface-control check and of a program
/// that finds no path shows the address and the count of the program at work or suspended, and leaves them where a start waits
/// or no program is there; attention leaves them, and a clear shows zero. A block that takes control with its PCI flag one makes
/// intermediate status with PCI at once, and neither a Data nor a command that is sent makes status of anything else. After each
/// step each
/// block stands where the blocks before it say, none was fetched after a check, and each that is next was fetched, but of a
/// program that did not begin or that was suspended; the device took consecutive commands of the program under the number of its offer, each once, from the first
/// on, or where it was suspended from the first that was not sent before; the bytes that were moved are those at the first
/// places of the command at work, in order; a chunk for the device was copied from its places as storage stood then; what the
/// device absorbed for a command are the first bytes of such chunks, side by side from the first place of the command on; and
/// the bytes of a read were stored at their places, and no other byte was changed (SA22-7832, chapters 15 and 16).
pub fn programs()
    ensures told { (setup : Setup) → IsLawful setup → (h : List Entry) (s : State) (run : Run (opening_of setup) h s) → AllTold (opening_of setup) h s run }
{
    step_laws::walks();
    crate::states::reset_numbers();
    moves::pieces();
    position_laws::positions();
    position_laws::advances();
    position_laws::programs();
    storage::fetched_bytes();
    storage::put_bytes();
}
