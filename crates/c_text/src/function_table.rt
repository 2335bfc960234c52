//! The functions of a program that have a body, by their names (C11 6.9.1).
ghost use Rattle.std.specs.Prelude.{◌≡◌, ◌++◌, [], ◌∷◌, slice_get, option_map, IfOk, OnOk};
ghost use Rattle.c_machine.specs.Program.{functions_in, main_in, number_in};
ghost use Rattle.c_text.specs.Numbered.{AreNumbers, with_first};

use crate::function_item::FunctionItem;
use cbase::{Item, List, NoMemory};
use std::alloc::Global;
use std::marker::Model;
use typing::environment::Names;

/// The functions of a program that have a body, in the order of the text, and the number of each by its name.
///
/// Contracts see it as the list of these functions.
#[derive(Drop)]
pub struct Functions<'a> {
    list: List<FunctionItem<'a>>,
    numbers: Names<u32>,
}

impl<'a> Model for Functions<'a> {
    ghost use Rattle.std.specs.Prelude.{List as Items};
    ghost use Rattle.std.specs.Coded.{codes, coded_list};
    ghost use Rattle.cbase.specs.contracts.tree.stmt.Stmt as s;
    ghost use Rattle.c_machine.specs.Program.{FunctionItem as OfProgram};
    ghost use Rattle.c_text.specs.Numbered.{AreNumbers};

    ghost Value = { Items OfProgram };

    ghost coded = { Prim.hlevel (codes, s.the_row.coded) };

    ghost view = { λ f. f.list };

    ghost invariant = { λ f. AreNumbers f.list f.numbers };
}

impl<'a> Functions<'a> {
    /// The functions of these items. Where there are more than can be numbered, memory is wanting.
    ///
    /// It takes time and memory for the items and for the names of the functions.
    pub fn of(alloc: Global, items: &'a [Item]) -> Result<Functions<'a>, NoMemory>
        ensures { IfOk result (λ functions. functions ≡ functions_in items.now) }
    {
        let mut list = List::new(alloc);
        let mut numbers = Names::new(alloc);
        match put_items(alloc, &mut list, &mut numbers, items) {
            Ok(()) => Ok(Functions { list, numbers }),
            Err(error) => Err(error),
        }
    }

    /// The number of the function of a name, if there is one. It takes one look-up by hash.
    pub fn number(&self, name: &[u8]) -> Option<u32>
        ensures { result ≡ number_in self.now name.now }
    {
        self.numbers.get(name)
    }

    /// The function of a number, if there is one. It takes one step.
    pub fn get(&self, number: u32) -> Option<&FunctionItem<'a>>
        ensures { option_map (λ function. function.now) result ≡ slice_get self.now number }
    {
        self.list.as_slice().get(number as usize)
    }

    /// The function with which the program begins (C11 5.1.2.2.1), if there is one.
    pub fn main(&self) -> Option<&FunctionItem<'a>>
        ensures { option_map (λ function. function.now) result ≡ main_in self.now }
    {
        main_of(self.list.as_slice())
    }
}

/// The first of these functions that is main, if one is.
fn main_of<'a, 'b>(functions: &'b [FunctionItem<'a>]) -> Option<&'b FunctionItem<'a>>
    ensures { option_map (λ function. function.now) result ≡ main_in functions.now }
{
    for function in functions {
        if function.is_main() {
            return Some(function);
        }
    }
    None
}

/// Puts the functions of items behind others.
fn put_items<'a>(
    alloc: Global,
    list: &mut List<FunctionItem<'a>>,
    numbers: &mut Names<u32>,
    items: &'a [Item],
) -> Result<(), NoMemory>
    requires { AreNumbers list.old numbers.old }
    ensures functions { OnOk result (list.new ≡ list.old ++ functions_in items.now) }
    ensures numbers { OnOk result (AreNumbers list.new numbers.new) }
{
    for item in items {
        put_item(alloc, list, numbers, item)?;
    }
    Ok(())
}

/// Puts the function of an item, if it is one, behind others.
fn put_item<'a>(
    alloc: Global,
    list: &mut List<FunctionItem<'a>>,
    numbers: &mut Names<u32>,
    item: &'a Item,
) -> Result<(), NoMemory>
    requires { AreNumbers list.old numbers.old }
    ensures functions { OnOk result (list.new ≡ list.old ++ functions_in (item.now ∷ [])) }
    ensures numbers { OnOk result (AreNumbers list.new numbers.new) }
{
    match item {
        Item::Empty => Ok(()),
        Item::Declare(_) => Ok(()),
        Item::Function {
            head,
            body,
            close,
            ..
        } => put(
            alloc,
            list,
            numbers,
            FunctionItem {
                name: head.name.as_slice(),
                token: head.place.at,
                body: body.as_slice(),
                close: *close,
            },
        ),
    }
}

/// Puts a function behind others. Its name gets its number, unless one of those has it.
fn put<'a>(
    alloc: Global,
    list: &mut List<FunctionItem<'a>>,
    numbers: &mut Names<u32>,
    function: FunctionItem<'a>,
) -> Result<(), NoMemory>
    requires { AreNumbers list.old numbers.old }
    ensures functions { OnOk result (list.new ≡ list.old ++ function.entry ∷ []) }
    ensures numbers { OnOk result (AreNumbers list.new numbers.new) }
{
    put_number(alloc, numbers, function.name, list.len())?;
    list.push(function)
}

/// Gives a name that number, unless it has one. Where the number is too large, memory is wanting.
fn put_number(
    alloc: Global,
    numbers: &mut Names<u32>,
    name: &[u8],
    number: usize,
) -> Result<(), NoMemory>
    ensures { OnOk result (numbers.new ≡ with_first name.now number numbers.old) }
{
    if numbers.get(name).is_some() {
        return Ok(());
    }
    let Ok(number) = u32::try_from(number) else {
        return Err(NoMemory);
    };
    numbers.put(alloc, name, number)
}
