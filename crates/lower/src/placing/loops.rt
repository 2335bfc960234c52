//! Loops (C11 6.8.5).
ghost use Rattle.std.specs.Prelude.{◌≡◌, ◌∷◌, [], length, List as Items, OnOk, IfOk};
ghost use Rattle.cbase.specs.declared.place.Place.{Place};
ghost use Rattle.c_machine.specs.Program.{Program};
ghost use Rattle.c_machine.specs.Trees.{text_of};
ghost use Rattle.lower.specs.Around.{around_of};
ghost use Rattle.lower.specs.Pieces.{Places, Stated};
ghost use Rattle.lower.specs.Built.{made_of};
ghost use Rattle.lowering.specs.Clauses.{clause_in};
ghost use Rattle.lower.specs.Jobs.{LeadsTo};
ghost use Rattle.lowering.specs.declared.moves.Move.TheVariants.{Does};
ghost use Rattle.flow.specs.declared.instruction.Instr.TheVariants as i;
ghost use Rattle.simulation.specs.Names.{Name, variables_of};
ghost use Rattle.c_machine.specs.Text.{For};
ghost use Rattle.lower.specs.ForPoints.{AreForPoints};
ghost use Rattle.lowering.specs.Placing.{Around, Made, after, along, branch, emit, enters, go, in_loop, is_at_head, is_break, is_declaration, passes, place_do, place_do_body, place_next, place_statement, place_turn, place_turns, stands_at, unless_declared, with_head, within};
ghost use Rattle.lowering.specs.Source.{IsSource};

use crate::around::Surroundings;
use crate::builder::{Builder, copied};
use crate::jobs::{Job, Jobs, LoopAround, copied_loop};
use crate::placing::behind::behind_instr;
use crate::placing::blocks::enters;
use crate::placing::objects::named_of;
use c_steps::{Stack, Tree};
use cbase::{Expr, List, NoMemory, Place, Stmt};
use flow::{Instr, Standing};
use lowering::clause::{TreeClause, read_clause};
use lowering::inner::does;
use lowering::line::TreeLine;
use lowering::names::{Named, variables_of};
use lowering::source::Source;
use std::alloc::Global;

/// Whether a statement is a declaration.
fn is_declaration(clause: &TreeClause) -> bool
    ensures { (p : Program) → result ≡ is_declaration (text_of p) (clause_in clause.now) }
{
    match clause {
        TreeClause::Declare(_) => true,
        _ => false,
    }
}

/// There is no graph where the body of a loop is a declaration (C11 6.8.5).
fn unless_declared(builder: &mut Builder, body: &Stmt)
    ensures { (p : Program) → made_of builder.new ≡ unless_declared (text_of p) body.now (made_of builder.old) }
{
    if is_declaration(&read_clause(body)) {
        builder.fail();
    }
}

/// Whether a body has no edge, and its loop goes on behind it.
fn passes(clause: &TreeClause) -> bool
    ensures { (p : Program) → result ≡ passes (text_of p) (clause_in clause.now) }
{
    match clause {
        TreeClause::Eval(expr) => expr.is_none(),
        TreeClause::Continue => true,
        _ => false,
    }
}

/// Whether a body is a `break`.
fn is_break(clause: &TreeClause) -> bool
    ensures { (p : Program) → result ≡ is_break (text_of p) (clause_in clause.now) }
{
    match clause {
        TreeClause::Break => true,
        _ => false,
    }
}

/// The loop around the body of a loop that stands among so many blocks, with so many more in it, where this stands around it.
fn loop_around(
    again: u32,
    behind: u32,
    inner: usize,
    outer: usize,
    standing: Standing,
) -> Option<LoopAround>
    ensures { (around inside : Around) → outer ≡ length around.scopes → inner ≡ length inside.scopes
        → (in_loop around inside again behind standing ≡ record inside { loop = result }) }
{
    let Standing { registers, .. } = standing;
    Some(LoopAround {
        again,
        behind,
        inner,
        outer,
        registers,
    })
}

/// The body of a loop alone.
fn body_line<'a>(alloc: Global, body: &'a Stmt) -> Result<TreeLine<'a>, NoMemory>
    ensures { IfOk result (λ line. line ≡ Does body.now ∷ []) }
{
    let mut line = Stack::new(alloc);
    does(&mut line, body)?;
    Ok(line)
}

/// A `while`: its head is the point where it begins (C11 6.8.5.1).
pub(crate) fn place_while<'a>(
    alloc: Global,
    builder: &mut Builder,
    jobs: &mut Jobs<'a>,
    around: &Surroundings,
    levels: u64,
    from: u32,
    test: &'a Expr,
    close: Place,
    body: &'a Stmt,
    to: u32,
) -> Result<(), NoMemory>
    ensures { OnOk result ((p : Program) → LeadsTo p (around_of around.now) jobs.old
        (branch (text_of p) (go levels (text_of p)) (around_of around.now) (in_loop (around_of around.now) (around_of around.now) from to (stands_at (made_of builder.old) from)) (with_head from (made_of builder.old)) from
        test.now close (Does body.now ∷ []) from [] to) jobs.new (made_of builder.new)) }
{
    let standing = builder.stands_at(alloc, from)?;
    builder.head(from)?;
    let one = body_line(alloc, body)?;
    jobs.push(Job::Branch {
        levels,
        from,
        test: Tree::of(test),
        close,
        one,
        one_to: from,
        other: Stack::new(alloc),
        other_to: to,
        turning: loop_around(from, to, around.scopes.len(), around.scopes.len(), standing),
    })
}

/// A `do`: its head is the point where it begins, and its test has a point of its own where its body has edges (C11 6.8.5.2).
pub(crate) fn place_do<'a>(
    alloc: Global,
    builder: &mut Builder,
    jobs: &mut Jobs<'a>,
    around: &Surroundings,
    levels: u64,
    from: u32,
    body: &'a Stmt,
    test: &'a Expr,
    close: Place,
    to: u32,
) -> Result<(), NoMemory>
    ensures { OnOk result ((p : Program) → LeadsTo p (around_of around.now) jobs.old
        (place_do (text_of p) (go levels (text_of p)) (around_of around.now) (unless_declared (text_of p) body.now (with_head from (made_of builder.old))) from body.now test.now close to
        (stands_at (made_of builder.old) from) (passes (text_of p) ((text_of p).clause body.now))) jobs.new (made_of builder.new)) }
{
    let standing = builder.stands_at(alloc, from)?;
    builder.head(from)?;
    unless_declared(builder, body);
    if passes(&read_clause(body)) {
        return tested_behind(alloc, jobs, around, levels, from, from, test, close, to);
    }
    let point = builder.point(copied(alloc, &standing)?)?;
    tested_behind(alloc, jobs, around, levels, point, from, test, close, to)?;
    do_body(alloc, jobs, around, levels, from, body, point, standing, to)
}

/// The test of a `do` is to be placed next: it leads back to its head, or to its end.
fn tested_behind<'a>(
    alloc: Global,
    jobs: &mut Jobs<'a>,
    around: &Surroundings,
    levels: u64,
    from: u32,
    head: u32,
    test: &'a Expr,
    close: Place,
    to: u32,
) -> Result<(), NoMemory>
    ensures { OnOk result (jobs.new ≡ Job.Branch levels from test.now close [] head [] to around.now.current ∷ jobs.old) }
{
    let turning = copied_loop(alloc, &around.current)?;
    jobs.push(Job::Branch {
        levels,
        from,
        test: Tree::of(test),
        close,
        one: Stack::new(alloc),
        one_to: head,
        other: Stack::new(alloc),
        other_to: to,
        turning,
    })
}

/// The body of a `do` is to be placed next.
fn do_body<'a>(
    alloc: Global,
    jobs: &mut Jobs<'a>,
    around: &Surroundings,
    levels: u64,
    from: u32,
    body: &'a Stmt,
    again: u32,
    standing: Standing,
    to: u32,
) -> Result<(), NoMemory>
    ensures { OnOk result ((p : Program) (made : Made) → LeadsTo p (around_of around.now) jobs.old
        (place_do_body (text_of p) (go levels (text_of p)) (in_loop (around_of around.now) (around_of around.now) again to standing) made from body.now again to
        (is_break (text_of p) ((text_of p).clause body.now))) jobs.new made) }
{
    if is_break(&read_clause(body)) {
        return jobs.push(Job::Edge {
            from,
            instr: Instr::Enter {
                variables: List::new(alloc),
            },
            to,
            place: body.place,
        });
    }
    let outside = copied_loop(alloc, &around.current)?;
    let turning = loop_around(
        again,
        to,
        around.scopes.len(),
        around.scopes.len(),
        standing,
    );
    turn_within(alloc, jobs, levels, from, body, again, turning, outside)
}

/// A body is to be placed next within a loop, and then another loop is around again.
fn turn_within<'a>(
    alloc: Global,
    jobs: &mut Jobs<'a>,
    levels: u64,
    from: u32,
    body: &'a Stmt,
    again: u32,
    turning: Option<LoopAround>,
    outside: Option<LoopAround>,
) -> Result<(), NoMemory>
    ensures { OnOk result ((p : Program) (around : Around) (made : Made) → around.loop ≡ outside
        → LeadsTo p around jobs.old (along (text_of p) (record around { loop = turning }) (go levels (text_of p) (record around { loop = turning })) made from
        (Does body.now ∷ []) again) jobs.new made) }
{
    let moves = body_line(alloc, body)?;
    jobs.push(Job::Within(outside))?;
    jobs.push(Job::Follow {
        levels,
        from,
        moves,
        to: again,
    })?;
    jobs.push(Job::Within(turning))
}

/// Whether what is done behind a turn of a `for` begins at its head.
fn is_at_head<'a>(test: &Option<Tree<'a, Expr>>, next: &Option<Tree<'a, Expr>>, body: &Stmt) -> bool
    ensures { (p : Program) → result ≡ is_at_head (text_of p) test.now next.now body.now }
{
    match next {
        None => true,
        Some(_) => match test {
            None => passes(&read_clause(body)),
            Some(_) => false,
        },
    }
}

/// A `for`: a block of its own (C11 6.8.5.3).
pub(crate) fn place_for<'a>(
    alloc: Global,
    source: &Source,
    builder: &mut Builder,
    jobs: &mut Jobs<'a>,
    around: &Surroundings,
    levels: u64,
    from: u32,
    stmt: &'a Stmt,
    first: &'a Stmt,
    test: Option<Tree<'a, Expr>>,
    semicolon: Place,
    next: Option<Tree<'a, Expr>>,
    close: Place,
    body: &'a Stmt,
    to: u32,
) -> Result<(), NoMemory>
    ensures { OnOk result (Places source.now (around_of around.now) levels (Stated from stmt.now to (For first.now test.entry semicolon next.entry close body.now)) jobs.old jobs.new (made_of builder.old) (made_of builder.new)) }
{
    let standing = builder.stands_at(alloc, from)?;
    unless_declared(builder, body);
    let names = named_of(alloc, source, builder, first)?;
    let at_head = is_at_head(&test, &next, body);
    let inside = entered(alloc, &standing, names.as_slice())?;
    let points = for_points(builder, alloc, &inside, at_head)?;
    for_jobs(
        alloc, jobs, around, levels, from, stmt.place, first, test, semicolon, next, close, body,
        points, names, standing, to,
    )
}

/// The jobs of a `for` with these points and objects, around which this stands.
fn for_jobs<'a>(
    alloc: Global,
    jobs: &mut Jobs<'a>,
    around: &Surroundings,
    levels: u64,
    from: u32,
    word: Place,
    first: &'a Stmt,
    test: Option<Tree<'a, Expr>>,
    semicolon: Place,
    next: Option<Tree<'a, Expr>>,
    close: Place,
    body: &'a Stmt,
    points: ForPoints,
    names: List<Named>,
    standing: Standing,
    to: u32,
) -> Result<(), NoMemory>
    ensures { OnOk result ((p : Program) (made : Made) → LeadsTo p (around_of around.now) jobs.old
        (emit (place_turns (text_of p) (go levels (text_of p)) (around_of around.now) (within names (around_of around.now))
        (along (text_of p) (within names (around_of around.now)) (go levels (text_of p) (within names (around_of around.now))) made from
        (enters names word ∷ Does first.now ∷ []) points.head)
        points.head test.entry semicolon next.entry close body.now points.again points.out to standing)
        points.out (i.Leave (variables_of names)) to word) jobs.new made) }
{
    let variables = variables_of(alloc, names.as_slice())?;
    jobs.push(Job::Unblock)?;
    jobs.push(Job::Edge {
        from: points.out,
        instr: Instr::Leave { variables },
        to,
        place: word,
    })?;
    next_job(jobs, levels, points.again, next, close, points.head)?;
    let turning = turning_for(around, points, standing, to)?;
    let outside = copied_loop(alloc, &around.current)?;
    turn_job(
        alloc, jobs, outside, levels, points, test, semicolon, body, turning,
    )?;
    first_job(alloc, jobs, levels, from, names, word, first, points.head)
}

/// The loop around the body of a `for`.
fn turning_for(
    around: &Surroundings,
    points: ForPoints,
    standing: Standing,
    to: u32,
) -> Result<Option<LoopAround>, NoMemory>
    ensures { IfOk result (λ turning. (names : Items Name) → in_loop (around_of around.now) (within names (around_of around.now)) points.again to standing
        ≡ record (within names (around_of around.now)) { loop = turning }) }
{
    let outer = around.scopes.len();
    match outer.checked_add(1) {
        None => Err(NoMemory),
        Some(inner) => Ok(loop_around(points.again, to, inner, outer, standing)),
    }
}

/// The points of a `for`: its head, the one where its block is left, and the one where what is done behind a turn begins.
#[derive(Clone, Copy)]
pub(crate) struct ForPoints {
    /// Its head.
    pub head: u32,
    /// Where its block is left.
    pub out: u32,
    /// Where what is done behind a turn begins.
    pub again: u32,
}

/// The points of a `for` in whose block this stands. What is done behind a turn begins at its head, or at a point of its own.
fn for_points(
    builder: &mut Builder,
    alloc: Global,
    entered: &Standing,
    at_head: bool,
) -> Result<ForPoints, NoMemory>
    ensures { IfOk result (λ points. AreForPoints at_head entered.now (made_of builder.old) points (made_of builder.new)) }
{
    let head = builder.two_points(alloc, entered)?;
    let out = head + 1;
    if at_head {
        builder.head(head)?;
        return Ok(ForPoints {
            head,
            out,
            again: head,
        });
    }
    let again = builder.point(copied(alloc, entered)?)?;
    builder.head(head)?;
    Ok(ForPoints { head, out, again })
}

/// What stands in the block of a `for`.
fn entered(alloc: Global, standing: &Standing, names: &[Named]) -> Result<Standing, NoMemory>
    ensures { IfOk result (λ inside. (p : Program) (place : Place) → inside ≡ after (text_of p) (enters names.now place) standing.now) }
{
    let mut inside = copied(alloc, standing)?;
    let variables = variables_of(alloc, names)?;
    behind_instr(alloc, &mut inside, &Instr::Enter { variables })?;
    Ok(inside)
}

/// What is done behind a turn is to be placed next, if anything is.
fn next_job<'a>(
    jobs: &mut Jobs<'a>,
    levels: u64,
    from: u32,
    next: Option<Tree<'a, Expr>>,
    close: Place,
    head: u32,
) -> Result<(), NoMemory>
    ensures { OnOk result ((p : Program) (around : Around) (made : Made)
        → LeadsTo p around jobs.old (place_next (text_of p) (go levels (text_of p)) around made from next.entry close head) jobs.new made) }
{
    match next {
        None => Ok(()),
        Some(expr) => jobs.push(Job::Full {
            levels,
            from,
            expr,
            end: close,
            to: head,
        }),
    }
}

/// A turn of a `for` from its head is to be placed next.
fn turn_job<'a>(
    alloc: Global,
    jobs: &mut Jobs<'a>,
    outside: Option<LoopAround>,
    levels: u64,
    points: ForPoints,
    test: Option<Tree<'a, Expr>>,
    semicolon: Place,
    body: &'a Stmt,
    turning: Option<LoopAround>,
) -> Result<(), NoMemory>
    ensures { OnOk result ((p : Program) (around : Around) (made : Made) → around.loop ≡ outside
        → LeadsTo p around jobs.old
        (place_turn (text_of p) (go levels (text_of p)) around (record around { loop = turning }) made points.head test.entry semicolon body.now points.again points.out)
        jobs.new made) }
{
    match test {
        None => turn_within(
            alloc,
            jobs,
            levels,
            points.head,
            body,
            points.again,
            turning,
            outside,
        ),
        Some(test) => {
            let one = body_line(alloc, body)?;
            jobs.push(Job::Branch {
                levels,
                from: points.head,
                test,
                close: semicolon,
                one,
                one_to: points.again,
                other: Stack::new(alloc),
                other_to: points.out,
                turning,
            })
        }
    }
}

/// What comes first in a `for` is to be placed next, in its block.
fn first_job<'a>(
    alloc: Global,
    jobs: &mut Jobs<'a>,
    levels: u64,
    from: u32,
    names: List<Named>,
    word: Place,
    first: &'a Stmt,
    head: u32,
) -> Result<(), NoMemory>
    ensures { OnOk result (jobs.new ≡ Job.Block names ∷ Job.Follow levels from (enters names word ∷ Does first.now ∷ []) head ∷ jobs.old) }
{
    let mut moves = Stack::new(alloc);
    does(&mut moves, first)?;
    enters(alloc, &mut moves, names.as_slice(), word)?;
    jobs.push(Job::Follow {
        levels,
        from,
        moves,
        to: head,
    })?;
    jobs.push(Job::Block(names))
}
