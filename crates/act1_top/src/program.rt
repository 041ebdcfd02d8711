ghost use Rattle.std.specs.Prelude.{◌≡◌, map};
ghost use Rattle.std.specs.String.{string_bytes};
ghost use Rattle.act1_frame.specs.Clauses.{RunEnds, HasReadFault, HasWriteFault, HasLongFile, Answers, CausesAreAnswered, IsComplete, KeepsAllBut, KeepsWhatIsNotWritten};
ghost use Rattle.act1_frame.specs.World.{world_of};
ghost use Rattle.act1_words.specs.Commands.{command_of};
ghost use Rattle.act1_words.specs.declared.command.Command.TheVariants.{Unknown};
ghost use Rattle.act1_top.specs.Run.{IsDone, IsVertical, IsRefuted, IsSpent, IsSure, HelpersAre, MayEnd, chosen_of, reads_of, writes_of, writes_at};

use crate::decide::decide;
use crate::laws::texts_are_one;
use act1_base::HashSeed;
use act1_frame::{finish, say_memory};
use act1_outside::{Files, Helpers, Sink};
use std::alloc::Global;

/// Does what the words ask for, and answers the status. `words` are those after the program's name.
///
/// Each line is printed and each file written after all of its text is made. `helpers` are asked by `flow` alone, where the
/// words have `--jobs` above 0; whatever they answer, no status comes of it that couldn't come without them. The tables of names hash by `seed`, which
/// whoever chooses the names shouldn't know; only how long the run takes depends on it.
pub fn run<F: Files, S: Sink, H: Helpers>(
    alloc: Global,
    seed: HashSeed,
    words: &[String],
    files: &mut F,
    out: &mut S,
    helpers: &mut H,
) -> u8
    // Status 0 of `flow` is the headline, 9 a plan that the rule of routes fails for, 10 a plan with a channel that has no
    // assignment, and 11 one with a channel whose search spent its budget; status 0 of `sim`, `cover` and `blif` is what is
    // printed, that of `check` a report that is accepted, and that of `extract` a netlist that the array means. Status 0 of `search` is an assignment, 10 a refutation and 11
    // a budget that is spent.
    ensures done { result ≡ 0 → IsDone (command_of (map string_bytes words.now)) (world_of (F.seen files.old) (S.seen out.old) (H.seen helpers.old)) (world_of (F.seen files.new) (S.seen out.new) (H.seen helpers.new)) }
    ensures vertical { result ≡ 9 → IsVertical (command_of (map string_bytes words.now)) (world_of (F.seen files.old) (S.seen out.old) (H.seen helpers.old)) (world_of (F.seen files.new) (S.seen out.new) (H.seen helpers.new)) }
    ensures refuted { result ≡ 10 → IsRefuted (command_of (map string_bytes words.now)) (world_of (F.seen files.old) (S.seen out.old) (H.seen helpers.old)) (world_of (F.seen files.new) (S.seen out.new) (H.seen helpers.new)) }
    ensures spent { result ≡ 11 → IsSpent (command_of (map string_bytes words.now)) (world_of (F.seen files.old) (S.seen out.old) (H.seen helpers.old)) (world_of (F.seen files.new) (S.seen out.new) (H.seen helpers.new)) }

    // What is printed and written is that of an ending that the words and files allow.
    ensures ends { RunEnds (MayEnd (command_of (map string_bytes words.now)) (H.seen helpers.old) (H.seen helpers.new)) (world_of (F.seen files.old) (S.seen out.old) (H.seen helpers.old)) result (world_of (F.seen files.new) (S.seen out.new) (H.seen helpers.new)) }

    // A cause that stands is answered, and with none the status is 0, or 15 for want of memory.
    ensures causes { CausesAreAnswered (chosen_of (command_of (map string_bytes words.now))) (MayEnd (command_of (map string_bytes words.now)) (H.seen helpers.old) (H.seen helpers.new)) (reads_of (command_of (map string_bytes words.now))) (writes_of (command_of (map string_bytes words.now))) (world_of (F.seen files.old) (S.seen out.old) (H.seen helpers.old)) result (world_of (F.seen files.new) (S.seen out.new) (H.seen helpers.new)) }
    ensures complete { IsComplete (MayEnd (command_of (map string_bytes words.now)) (H.seen helpers.old) (H.seen helpers.new)) (writes_of (command_of (map string_bytes words.now))) (world_of (F.seen files.old) (S.seen out.old) (H.seen helpers.old)) result (world_of (F.seen files.new) (S.seen out.new) (H.seen helpers.new)) }
    // Where both texts are accepted and nothing stands in the way, `flow` ends with 0, 8 to 11 or 15; with 0 or 15 where
    // the device is ample for the netlist.
    ensures sure { IsSure (command_of (map string_bytes words.now)) (world_of (F.seen files.old) (S.seen out.old) (H.seen helpers.old)) result (world_of (F.seen files.new) (S.seen out.new) (H.seen helpers.new)) }
    ensures usage { command_of (map string_bytes words.now) ≡ Unknown
        → Answers 1 (writes_of (command_of (map string_bytes words.now))) (world_of (F.seen files.old) (S.seen out.old) (H.seen helpers.old)) result (world_of (F.seen files.new) (S.seen out.new) (H.seen helpers.new)) }

    // Statuses 1, 2, 3 and 16 come only with their causes.
    ensures no_command { result ≡ 1 → command_of (map string_bytes words.now) ≡ Unknown }
    ensures read_fault { result ≡ 2 → HasReadFault (reads_of (command_of (map string_bytes words.now))) (F.seen files.old) (F.seen files.new) }
    ensures write_fault { result ≡ 3 → HasWriteFault (writes_of (command_of (map string_bytes words.now))) (world_of (F.seen files.old) (S.seen out.old) (H.seen helpers.old)) (world_of (F.seen files.new) (S.seen out.new) (H.seen helpers.new)) }
    ensures too_long { result ≡ 16 → HasLongFile (reads_of (command_of (map string_bytes words.now))) (F.seen files.old) }

    // What the names hold afterwards, and the helpers.
    ensures kept { KeepsWhatIsNotWritten (writes_at (command_of (map string_bytes words.now))) (world_of (F.seen files.old) (S.seen out.old) (H.seen helpers.old)) result (world_of (F.seen files.new) (S.seen out.new) (H.seen helpers.new)) }
    ensures others { KeepsAllBut (writes_of (command_of (map string_bytes words.now))) (world_of (F.seen files.old) (S.seen out.old) (H.seen helpers.old)) (world_of (F.seen files.new) (S.seen out.new) (H.seen helpers.new)) }
    ensures helpers { HelpersAre (command_of (map string_bytes words.now)) (F.seen files.old) (H.seen helpers.old) (H.seen helpers.new) }
{
    texts_are_one();
    match decide(alloc, seed, words, files, helpers) {
        Ok(ending) => finish(alloc, &ending, files, out),
        Err(_) => say_memory(out),
    }
}
