//! What the answers of `predator FILE` mean. The premise of each is the clause `judged` of `verdicts::predator`, or those named at it.
ghost use Rattle.std.specs.Prelude.{◌≡◌, ℕ, Bool, true, IsTrue, Option, Some, None};
ghost use Rattle.std.specs.Prelude.{List as Items};
ghost use Rattle.cbase.specs.declared.place.Place.{Place};
ghost use Rattle.outside.specs.Faults.{Rose};
ghost use Rattle.command_line.specs.CommandLine.{file_of};
ghost use Rattle.report.specs.declared.answer.Answer.{Answer};
ghost use Rattle.report.specs.declared.answer.Why.{Why};
ghost use Rattle.report.specs.declared.limits.Limits.{Limits};
ghost use Rattle.report.specs.declared.warning.Warning.{Warning};
ghost use Rattle.verdicts.specs.Answered.{IsAnswered};
ghost use Rattle.verdicts.specs.Verdict.{IsVerdict};
ghost use Rattle.claims.specs.OfFile.{OfFile};
ghost use Rattle.claims.specs.Safe.{MeansSafe};
ghost use Rattle.claims.specs.Warned.{MeansComplete, MeansFound, MeansWarned};
ghost use Rattle.claims.specs.Plain.{MeansExactly};
ghost use Rattle.claims.specs.GaveUp.{MeansGaveUp};
ghost use Rattle.claims.specs.Limited.{MeansLarge, MeansSpent};
ghost use Rattle.claims.specs.NotRead.{MeansNoToken, MeansTooDeep, MeansNoMain, MeansSyntax, MeansRule};
ghost use Rattle.claims.specs.NotYet.{MeansNotYet};
ghost use Rattle.claims.specs.TooLong.{MeansTooLong};
ghost use Rattle.claims.specs.Words.{MeansUsage};
ghost use Rattle.claims.specs.ReadFault.{MeansReadFault};

/// `safe`: the bytes of FILE hold a program, and no run of it, with any choices and however long, meets a fault.
#[tactic(auto, using(crate::proofs::Meanings::safe))]
pub fn safe_means()
    ensures { (tells : Bool) (content : Option (Items ℕ)) (left file : Items ℕ) (limits : Limits) (names : Items (Items ℕ))
        → IsAnswered tells content left limits file names Answer.Safe
        → OfFile tells content (MeansSafe file) }
{}

/// `warned`: they hold a program, and each warning that is an error some run of it meets, at the token at whose place it stands.
pub fn warned_means()
    ensures { (tells : Bool) (content : Option (Items ℕ)) (left file : Items ℕ) (limits : Limits) (names : Items (Items ℕ)) (warnings : Items Warning) (complete : Bool)
        → IsAnswered tells content left limits file names (Answer.Warned warnings complete)
        → OfFile tells content (λ bytes. MeansWarned file bytes warnings) }
{}

/// The warnings of `warned` are those of an analysis of its flow graph, in the order of their tokens and kinds: each tells of a fault of a graph that was followed, and each such fault has one.
/// All was followed, or, where the answer says so, the budget was spent before.
#[tactic(auto, using(crate::proofs::Meanings::found))]
pub fn warnings_mean()
    ensures { (tells : Bool) (content : Option (Items ℕ)) (left file : Items ℕ) (limits : Limits) (names : Items (Items ℕ)) (warnings : Items Warning) (complete : Bool)
        → IsAnswered tells content left limits file names (Answer.Warned warnings complete)
        → OfFile tells content (λ bytes. MeansFound limits file bytes warnings complete) }
{}

/// `warned` without `budget of N states spent`: each fault that a run of the program meets is among the warnings, at the place of its token, unless an access through a word of which nothing is known was followed.
pub fn complete_warnings_mean()
    ensures { (tells : Bool) (content : Option (Items ℕ)) (left file : Items ℕ) (limits : Limits) (names : Items (Items ℕ)) (warnings : Items Warning)
        → IsAnswered tells content left limits file names (Answer.Warned warnings true)
        → OfFile tells content (λ bytes. MeansComplete limits file bytes warnings) }
{}

/// Where the content of FILE is told, and holds a plain program in whose flow graph at most as many walks lead on from main's entry as states may be kept: the answer is `safe`, and no run of the
/// program meets a fault, or `warned`, with exactly the faults of its runs, each as an error. Premises: the clauses `judged` and `verdict`.
pub fn plain_means()
    ensures { (tells : Bool) (content : Option (Items ℕ)) (left file whole : Items ℕ) (limits : Limits) (names : Items (Items ℕ)) (answer : Answer)
        → IsTrue tells → content ≡ Some whole
        → IsVerdict answer
        → IsAnswered tells content left limits file names answer
        → MeansExactly limits file whole answer }
{}

/// `gave up: budget of N states spent`: they hold a program, and on its flow graph the analysis spent its budget, of N kept states, where there was one more.
#[tactic(auto, using(crate::proofs::Meanings::spent))]
pub fn spent_means()
    ensures { (tells : Bool) (content : Option (Items ℕ)) (left file : Items ℕ) (limits : Limits) (names : Items (Items ℕ))
        → IsAnswered tells content left limits file names Answer.Spent
        → OfFile tells content (MeansSpent limits file) }
{}

/// `gave up: state too large`: they hold a program, and on its flow graph the analysis came to a state that is too large.
#[tactic(auto, using(crate::proofs::Meanings::large))]
pub fn large_means()
    ensures { (tells : Bool) (content : Option (Items ℕ)) (left file : Items ℕ) (limits : Limits) (names : Items (Items ℕ))
        → IsAnswered tells content left limits file names Answer.Large
        → OfFile tells content (MeansLarge limits file) }
{}

/// `gave up`: of the items that main needs the first that is refused is so for the construct of this number, at this place.
#[tactic(auto, using(crate::proofs::Meanings::gave_up))]
pub fn gave_up_means()
    ensures { (tells : Bool) (content : Option (Items ℕ)) (left file : Items ℕ) (limits : Limits) (names : Items (Items ℕ)) (number : ℕ) (place : Place)
        → IsAnswered tells content left limits file names (Answer.Construct number place)
        → OfFile tells content (λ bytes. MeansGaveUp file bytes number place) }
{}

/// `not read: no token`: the place is the first at which the bytes have no token.
#[tactic(auto, using(crate::proofs::Meanings::no_token))]
pub fn no_token_means()
    ensures { (tells : Bool) (content : Option (Items ℕ)) (left file : Items ℕ) (limits : Limits) (names : Items (Items ℕ)) (place : Place)
        → IsAnswered tells content left limits file names (Answer.NotRead (Why.Lexical place))
        → OfFile tells content (λ bytes. MeansNoToken file bytes place) }
{}

/// `not read: too deep`: the place is that of the first bracket that opens at depth 257.
#[tactic(auto, using(crate::proofs::Meanings::too_deep))]
pub fn too_deep_means()
    ensures { (tells : Bool) (content : Option (Items ℕ)) (left file : Items ℕ) (limits : Limits) (names : Items (Items ℕ)) (place : Place)
        → IsAnswered tells content left limits file names (Answer.NotRead (Why.Deep place))
        → OfFile tells content (λ bytes. MeansTooDeep file bytes place) }
{}

/// `not read: no main`: the bytes have items, and none defines main.
#[tactic(auto, using(crate::proofs::Meanings::no_main))]
pub fn no_main_means()
    ensures { (tells : Bool) (content : Option (Items ℕ)) (left file : Items ℕ) (limits : Limits) (names : Items (Items ℕ))
        → IsAnswered tells content left limits file names (Answer.NotRead Why.NoMain)
        → OfFile tells content (MeansNoMain file) }
{}

/// `not read: syntax`: of the items that main needs the first that is refused is so because the grammar spells it by no tree, and it has no construct that is given up; it begins at the place.
#[tactic(auto, using(crate::proofs::Meanings::syntax))]
pub fn syntax_means()
    ensures { (tells : Bool) (content : Option (Items ℕ)) (left file : Items ℕ) (limits : Limits) (names : Items (Items ℕ)) (place : Place)
        → IsAnswered tells content left limits file names (Answer.NotRead (Why.Syntax place))
        → OfFile tells content (λ bytes. MeansSyntax file bytes place) }
{}

/// `not read: rule`: the first that is refused is so because it breaks the rule of this number, at this place.
#[tactic(auto, using(crate::proofs::Meanings::rule))]
pub fn rule_means()
    ensures { (tells : Bool) (content : Option (Items ℕ)) (left file : Items ℕ) (limits : Limits) (names : Items (Items ℕ)) (number : ℕ) (place : Place)
        → IsAnswered tells content left limits file names (Answer.NotRead (Why.Rule number place))
        → OfFile tells content (λ bytes. MeansRule file bytes number place) }
{}

/// `not read: not yet`: they hold a program, and the place is that of the first call of a function that it defines, by its flow graph.
#[tactic(auto, using(crate::proofs::Meanings::not_yet))]
pub fn not_yet_means()
    ensures { (tells : Bool) (content : Option (Items ℕ)) (left file : Items ℕ) (limits : Limits) (names : Items (Items ℕ)) (place : Place)
        → IsAnswered tells content left limits file names (Answer.NotYet place)
        → OfFile tells content (λ bytes. MeansNotYet file bytes place) }
{}

/// `not read: over 4194304 bytes`: so many bytes and one more are those that FILE begins with.
#[tactic(auto, using(crate::proofs::Meanings::too_long))]
pub fn too_long_means()
    ensures { (tells : Bool) (content : Option (Items ℕ)) (left file : Items ℕ) (limits : Limits) (names : Items (Items ℕ)) (taken : ℕ)
        → IsAnswered tells content left limits file names (Answer.TooLong taken)
        → MeansTooLong tells content }
{}

/// The usage line: the words do not have the form of a command. Premise: the clause `usage_only`.
#[tactic(auto, using(crate::proofs::Meanings::usage))]
pub fn usage_means()
    ensures { (words : Items (Items ℕ)) (answer : Answer)
        → (answer ≡ Answer.Usage → file_of words ≡ None)
        → answer ≡ Answer.Usage
        → MeansUsage words }
{}

/// A read fault: FILE was the last file that was opened, the last call failed, and the count of faults of the files rose. Premises: the clauses `rose`, `failed` and `begun`.
#[tactic(auto, using(crate::proofs::Meanings::read_fault))]
pub fn read_fault_means()
    ensures { (words : Items (Items ℕ)) (answer : Answer) (before after : ℕ) (failed : Bool) (begun : Items ℕ)
        → (answer ≡ Answer.ReadFault → Rose before after)
        → (answer ≡ Answer.ReadFault → failed ≡ true)
        → (answer ≡ Answer.ReadFault → file_of words ≡ Some begun)
        → answer ≡ Answer.ReadFault
        → MeansReadFault words before after failed begun }
{}
