//! Laws of the definitions that contracts cite.
ghost use Rattle.std.specs.Prelude.{◌≡◌, ◌↔◌, ℕ, List, [], ◌∷◌};
ghost use Rattle.sym_command.specs.Commands.{Asked, ReadsNoRuns, command_of};
ghost use Rattle.sym_command.specs.Working.{DifferInWork};
ghost use Rattle.sym_top.specs.Ends.{End, Held, IsEnd, IsWhole};
ghost use Rattle.sym_top.specs.EndReading.{end_of};
ghost use Rattle.sym_top.specs.Parts.{IsJoinOfTexts, IsReportedApart, IsReportedInOne, IsReportedJoined};
ghost use Rattle.sym_top.specs.Programs.{Program};

/// Each call has one end. That of a call whose files have records is the one that the function finds.
pub fn ends_are_found()
    ensures found { (asked : Asked) (held : Held) (end : End) →
        ReadsNoRuns (command_of asked) → IsEnd asked held end ↔ (end_of asked held ≡ end) }
    ensures some { (asked : Asked) (held : Held) → (end : End) × IsEnd asked held end }
    ensures one { (asked : Asked) (held : Held) (end other : End) →
        IsEnd asked held end → IsEnd asked held other → end ≡ other }
{}

/// `reduce` over the texts that `map` wrote of consecutive parts comes to what `run` comes to over
/// all files.
pub fn parts_are_reported_as_a_whole()
    ensures { (whole : Asked) (held : Held) (apart : Asked) (runs : Held) (end : End) →
        IsReportedApart whole held apart runs →
        IsEnd whole held end → IsWhole end → IsEnd apart runs end }
{}

/// `reduce` over texts that were joined, in any bracketing and by any limits, comes to what
/// `reduce` comes to over the texts themselves, and so to what `run` comes to over all files if the
/// texts are those that `map` wrote of consecutive parts. The join of one text is that text.
pub fn joins_change_no_report()
    ensures joined { (parts : Asked) (texts : Held) (joined : Asked) (runs : Held) (end : End) →
        IsReportedJoined parts texts joined runs →
        IsEnd parts texts end → IsWhole end → IsEnd joined runs end }
    ensures whole { (whole : Asked) (held : Held) (joined : Asked) (runs : Held) (end : End) →
        IsReportedInOne whole held joined runs →
        IsEnd whole held end → IsWhole end → IsEnd joined runs end }
    ensures alone { (program : Program) (bytes text : List ℕ) →
        IsJoinOfTexts program (bytes ∷ []) text → text ≡ bytes }
{}

/// Two calls have the same end if their commands differ in `--chunk`, `--limit`, `--workers` and
/// `--watch` alone. The limits of two calls of `map`, and of two of `join`, have to be the same.
pub fn ends_do_not_depend_on_work()
    ensures { (one other : Asked) (held : Held) (end : End) → DifferInWork one other →
        IsEnd one held end ↔ IsEnd other held end }
{}
