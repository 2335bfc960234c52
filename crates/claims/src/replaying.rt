//! What the answers of `predator replay FILE CHOICES` mean that speak of a run or of CHOICES. The premise of each is the clause `judged` of `replay::replay`.
ghost use Rattle.std.specs.Prelude.{ℕ, Bool, Option};
ghost use Rattle.std.specs.Prelude.{List as Items};
ghost use Rattle.cbase.specs.declared.place.Place.{Place};
ghost use Rattle.command_line.specs.declared.replay.ReplayCommand.{ReplayCommand};
ghost use Rattle.report.specs.declared.replay_answer.ReplayAnswer.{ReplayAnswer};
ghost use Rattle.report.specs.declared.replay_answer.Replayed.{Replayed};
ghost use Rattle.replay.specs.Answered.{IsAnswered};
ghost use Rattle.claims.specs.OfFile.{OfFile};
ghost use Rattle.claims.specs.Played.{OfBoth, MeansFault, MeansEnded, MeansWaits, MeansStillRunning, MeansNoStep};
ghost use Rattle.claims.specs.NoChoices.{MeansNoChoices};

/// A fault: the bytes of FILE hold a program, those of CHOICES spell choices, and with these a run of it meets a fault of this kind within the steps of the words, at the token that stands at the place.
pub fn fault_means()
    ensures { (tells : Bool) (content other : Option (Items ℕ)) (command : ReplayCommand) (names : Items (Items ℕ)) (kind : ℕ) (place : Place)
        → IsAnswered tells content other command names (ReplayAnswer.Played (Replayed.Fault kind place))
        → OfBoth tells content other (MeansFault command kind place) }
{}

/// `ended`: the run is over within these steps, and met no fault.
pub fn ended_means()
    ensures { (tells : Bool) (content other : Option (Items ℕ)) (command : ReplayCommand) (names : Items (Items ℕ))
        → IsAnswered tells content other command names (ReplayAnswer.Played Replayed.Ended)
        → OfBoth tells content other (MeansEnded command) }
{}

/// `waits`: within these steps the run asks for a choice, and each of those of CHOICES is taken.
pub fn waits_means()
    ensures { (tells : Bool) (content other : Option (Items ℕ)) (command : ReplayCommand) (names : Items (Items ℕ))
        → IsAnswered tells content other command names (ReplayAnswer.Played Replayed.Waits)
        → OfBoth tells content other (MeansWaits command) }
{}

/// `still running`: behind so many steps the run goes on, and met no fault.
pub fn still_running_means()
    ensures { (tells : Bool) (content other : Option (Items ℕ)) (command : ReplayCommand) (names : Items (Items ℕ))
        → IsAnswered tells content other command names (ReplayAnswer.Played Replayed.Running)
        → OfBoth tells content other (MeansStillRunning command) }
{}

/// `gave up: no step`: the run comes where the machine has no step.
pub fn no_step_means()
    ensures { (tells : Bool) (content other : Option (Items ℕ)) (command : ReplayCommand) (names : Items (Items ℕ))
        → IsAnswered tells content other command names (ReplayAnswer.Played Replayed.Stuck)
        → OfBoth tells content other (MeansNoStep command) }
{}

/// `no choices`: the bytes of CHOICES spell no list of choices.
#[tactic(auto, using(crate::proofs::Playing::no_choices))]
pub fn no_choices_means()
    ensures { (tells : Bool) (content other : Option (Items ℕ)) (command : ReplayCommand) (names : Items (Items ℕ))
        → IsAnswered tells content other command names ReplayAnswer.BadChoices
        → OfFile tells other MeansNoChoices }
{}
