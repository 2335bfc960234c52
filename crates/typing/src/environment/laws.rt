//! Laws of names in scope. Each is the contract of a function that does nothing.
ghost use Rattle.std.specs.Prelude.{◌≡◌, ◌↔◌, ◌≢◌, ◌≤◌, ◌<◌, ℕ, Bool, true, false, List, [], Option, Some, IsTrue, IfSome, slice_get};
ghost use Rattle.cbase.specs.declared.tree.decl.Storage.{Storage};
ghost use Rattle.typing.specs.declared.environment.entity.Binding.{Binding};
ghost use Rattle.typing.specs.declared.environment.entity.Definition.{Definition};
ghost use Rattle.typing.specs.declared.environment.entity.Entity.{Entity};
ghost use Rattle.typing.specs.declared.environment.entity.Linked.{Linked};
ghost use Rattle.typing.specs.declared.environment.entity.Signature.{Signature};
ghost use Rattle.typing.specs.declared.environment.entity.Tag.{Tag};
ghost use Rattle.typing.specs.declared.environment.entity.TagForm.{TagForm};
ghost use Rattle.typing.specs.declared.environment.environment.Environment.{Environment};
ghost use Rattle.typing.specs.declared.environment.linkage.Kind.{Kind};
ghost use Rattle.typing.specs.declared.environment.linkage.Standing.{Standing};
ghost use Rattle.typing.specs.environment.Names.{Entries, value_in};
ghost use Rattle.typing.specs.environment.Scopes.{Scopes, IsVisible, found, found_here, declared, declared_around, all_declared, entered, left};
ghost use Rattle.typing.specs.environment.Environment.{nothing_declared, name_found, name_found_here, tag_found, scope_entered, scope_left, name_bound, name_bound_around, tag_declared, name_linked, definition_set, signature_added, loop_set, function_set, name_defined, is_defined, strict_set};
ghost use Rattle.typing.specs.environment.Linkage.{HasLinkage, has_linkage, LastIsFound, IsOneThing, OutlivesScopes};
ghost use Rattle.typing.specs.environment.BuiltInRows.{AreBuiltIn};
ghost use Rattle.typing.specs.environment.Bounds.{SignatureBelow, EntityBelow, BindingBelow, AreBelow};

/// A name stands for what it is visible as, and for nothing where it is visible as nothing (C11 6.2.1p4).
pub fn found_is_what_is_visible<A>()
    ensures { (name : List ℕ) (value : A) (scopes : Scopes A) →
        (found name scopes ≡ Some value) ↔ IsVisible name value scopes }
{}

/// What was declared last in the innermost scope is found, and other names are found as before.
#[tactic(auto, using(crate::proofs::environment::Visible::found_declared, crate::proofs::environment::Visible::found_other))]
pub fn declared_is_found<A>()
    ensures itself { (name : List ℕ) (value : A) (scopes : Scopes A) → scopes ≢ [] →
        found name (declared name value scopes) ≡ Some value }
    ensures others { (other name : List ℕ) (value : A) (scopes : Scopes A) → other ≢ name →
        found other (declared name value scopes) ≡ found other scopes }
{}

/// A scope that is left gives back what was visible, whatever it declared.
#[tactic(auto, using(crate::proofs::environment::Visible::left_declared))]
pub fn left_is_as_before<A>()
    ensures { (names : Entries A) (scopes : Scopes A) → left (all_declared names (entered scopes)) ≡ scopes }
{}

/// What is declared in the scope around the innermost one is declared there once that one is left, and says nothing of the innermost itself.
#[tactic(auto, using(crate::proofs::environment::NearScopes::left_around, crate::proofs::environment::NearScopes::here_around))]
pub fn declared_around_is_declared_once_left<A>()
    ensures left { (name : List ℕ) (value : A) (scopes : Scopes A) →
        left (declared_around name value scopes) ≡ declared name value (left scopes) }
    ensures here { (other name : List ℕ) (value : A) (scopes : Scopes A) →
        found_here other (declared_around name value scopes) ≡ found_here other scopes }
{}

/// A scope that is left changes nothing of what was said of loops, of functions and of definitions.
pub fn scopes_say_nothing_of_functions()
    ensures in_loop { (env : Environment) → (scope_left env).in_loop ≡ env.in_loop }
    ensures result { (env : Environment) → (scope_left env).result ≡ env.result }
    ensures definitions { (env : Environment) → (scope_left env).definitions ≡ env.definitions }
    ensures strict { (env : Environment) → (scope_left env).strict ≡ env.strict }
{}

/// A name that was said to be defined is defined, other names are as before, and none is where nothing was said.
#[tactic(auto, using(crate::proofs::environment::Visible::defined_is, crate::proofs::environment::Visible::others_defined))]
pub fn defined_is_known()
    ensures nothing { (name : List ℕ) → is_defined name nothing_declared ≡ false }
    ensures itself { (name : List ℕ) (env : Environment) → is_defined name (name_defined name env) ≡ true }
    ensures others { (other name : List ℕ) (env : Environment) → other ≢ name →
        is_defined other (name_defined name env) ≡ is_defined other env }
{}

/// Names and tags do not meet: declaring one changes no look-up of the other (C11 6.2.3).
pub fn name_spaces_are_apart()
    ensures names { (name tag : List ℕ) (meaning : Tag) (env : Environment) → name_found name (tag_declared tag meaning env) ≡ name_found name env }
    ensures tags { (form : TagForm) (name tag : List ℕ) (binding : Binding) (env : Environment) → tag_found form tag (name_bound name binding env) ≡ tag_found form tag env }
{}

/// A name with linkage is one thing in the whole text (C11 6.2.2p2).
#[tactic(auto, using(crate::proofs::environment::Visible::last_found, crate::proofs::environment::Visible::one_thing))]
pub fn linkage_is_of_the_whole_text()
    ensures last { LastIsFound }
    ensures one { IsOneThing }
    ensures kept { OutlivesScopes }
{}

/// The table of linkage says what the rules of C11 6.2.2p3-6 say.
#[tactic(auto, using(crate::proofs::environment::Linkages::table_is_right))]
pub fn linkage_is_by_the_rules()
    ensures { (standing : Standing) (storage : Storage) (kind : Kind) → IsTrue (has_linkage standing storage kind) ↔ HasLinkage standing storage kind }
{}

/// The functions that are built in have the types of `specs/environment/BuiltInRows.antt`, in both data layouts.
#[tactic(auto, using(crate::proofs::environment::Worked::built_in_rows))]
pub fn built_in_rows_hold()
    ensures { AreBuiltIn }
{}

/// Where the numbers of an environment are in range, so are those of what is found in it.
#[tactic(auto, using(crate::proofs::environment::Bounds::found_is_below, crate::proofs::environment::Bounds::found_here_is_below))]
pub fn what_is_found_is_below()
    ensures name { (count : ℕ) (name : List ℕ) (env : Environment) (entity : Entity) → AreBelow count env →
        name_found name env ≡ Some entity → EntityBelow count env.signatures entity }
    ensures here { (count : ℕ) (name : List ℕ) (env : Environment) (entity : Entity) → AreBelow count env →
        name_found_here name env ≡ Some entity → EntityBelow count env.signatures entity }
    ensures linked { (count : ℕ) (name : List ℕ) (env : Environment) (meaning : Linked) → AreBelow count env →
        value_in name env.linked ≡ Some meaning → EntityBelow count env.signatures meaning.entity }
    ensures signature { (count number : ℕ) (env : Environment) (signature : Signature) → AreBelow count env →
        slice_get env.signatures number ≡ Some signature → SignatureBelow count signature }
    ensures result { (count number : ℕ) (env : Environment) → AreBelow count env → env.result ≡ Some number → number < count }
{}

/// Numbers that are in range stay so where there are more types.
#[tactic(auto, using(crate::proofs::environment::Bounds::bounds_grow))]
pub fn bounds_grow()
    ensures { (count more : ℕ) (env : Environment) → count ≤ more → AreBelow count env → AreBelow more env }
{}

/// Outside all scopes no number is out of range, and none comes to be by a scope or a tag.
#[tactic(auto, using(crate::proofs::environment::Bounds::nothing_below, crate::proofs::environment::Bounds::entered_below, crate::proofs::environment::Bounds::tagged_below))]
pub fn scopes_keep_bounds()
    ensures nothing { (count : ℕ) → AreBelow count nothing_declared }
    ensures entered { (count : ℕ) (env : Environment) → AreBelow count env → AreBelow count (scope_entered env) }
    ensures left { (count : ℕ) (env : Environment) → AreBelow count env → AreBelow count (scope_left env) }
    ensures tag { (count : ℕ) (name : List ℕ) (tag : Tag) (env : Environment) → AreBelow count env → AreBelow count (tag_declared name tag env) }
{}

/// All numbers stay in range where one more thing is declared whose numbers are.
#[tactic(auto, using(crate::proofs::environment::Bounds::added_below))]
pub fn declarations_keep_bounds()
    ensures bound { (count : ℕ) (name : List ℕ) (binding : Binding) (env : Environment) → AreBelow count env →
        BindingBelow count env.signatures binding → AreBelow count (name_bound name binding env) }
    ensures around { (count : ℕ) (name : List ℕ) (binding : Binding) (env : Environment) → AreBelow count env →
        BindingBelow count env.signatures binding → AreBelow count (name_bound_around name binding env) }
    ensures linked { (count : ℕ) (name : List ℕ) (meaning : Linked) (env : Environment) → AreBelow count env →
        EntityBelow count env.signatures meaning.entity → AreBelow count (name_linked name meaning env) }
    ensures signature { (count : ℕ) (signature : Signature) (env : Environment) → AreBelow count env →
        SignatureBelow count signature → AreBelow count (signature_added signature env) }
{}

/// All numbers stay in range where a function is entered whose result has one that is, or functions are left, and by what is said of
/// loops, of definitions and of `main`.
#[tactic(auto, using(crate::proofs::environment::Bounds::function_below, crate::proofs::environment::Bounds::loop_below, crate::proofs::environment::Bounds::defined_below, crate::proofs::environment::Bounds::strict_below))]
pub fn functions_keep_bounds()
    ensures function { (count : ℕ) (result : Option ℕ) (env : Environment) → AreBelow count env →
        IfSome result (λ number. number < count) → AreBelow count (function_set result env) }
    ensures in_loop { (count : ℕ) (in_loop : Bool) (env : Environment) → AreBelow count env → AreBelow count (loop_set in_loop env) }
    ensures defined { (count : ℕ) (name : List ℕ) (env : Environment) → AreBelow count env → AreBelow count (name_defined name env) }
    ensures definition { (count : ℕ) (name : List ℕ) (definition : Definition) (env : Environment) → AreBelow count env →
        AreBelow count (definition_set name definition env) }
    ensures strict { (count : ℕ) (strict : Bool) (env : Environment) → AreBelow count env → AreBelow count (strict_set strict env) }
{}
