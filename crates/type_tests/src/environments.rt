use cbase::{List, NoMemory};
use std::alloc::Global;
use std::test::Fail;
use typing::environment::{
    Binding, DeclaredType, Definition, Entity, Environment, Linked, Signature, Tag, TagForm,
};

/// Whether a typedef of a block is found in it, and that of the file behind it.
fn inner_names_hide(alloc: Global, env: &mut Environment) -> Result<bool, NoMemory> {
    let outer = Entity::Typedef {
        ctype: DeclaredType::Whole(1),
    };
    let inner = Entity::Typedef {
        ctype: DeclaredType::UnsizedArray(1),
    };
    env.declare(alloc, b"T", Binding::Own(outer))?;
    env.open(alloc)?;
    env.declare(alloc, b"T", Binding::Own(inner))?;
    let inside = env.look_up(b"T") == Some(inner);
    env.close();
    Ok(inside && env.look_up(b"T") == Some(outer))
}

/// Whether a block that mentions a tag takes that of the file, and one that declares it does not.
fn tags_are_found_by_form(alloc: Global, env: &mut Environment) -> Result<bool, NoMemory> {
    let structure = Tag::Struct {
        number: 0,
        listed: false,
    };
    env.declare_tag(alloc, b"s", structure)?;
    env.open(alloc)?;
    let mentioned = env.tag(TagForm::Mentioned, b"s") == Some(structure);
    let declared = env.tag(TagForm::Declared, b"s").is_some();
    env.close();
    Ok(mentioned && !declared)
}

/// Whether a function that a block declares is that of the file, with its signature.
fn linkage_is_of_the_text(alloc: Global, env: &mut Environment) -> Result<bool, NoMemory> {
    let signature = env.add_signature(Signature {
        result: 3,
        parameters: List::new(alloc),
    })?;
    let entity = Entity::Function {
        signature,
        defined: true,
        built_in: false,
    };
    env.open(alloc)?;
    env.declare(alloc, b"f", Binding::WithLinkage(None))?;
    env.link(
        alloc,
        b"f",
        Linked {
            entity,
            definition: Definition::NotDefined,
        },
    )?;
    let found = env.look_up(b"f") == Some(entity);
    Ok(found && env.signature(signature).is_some())
}

/// Whether what is declared around a block is hidden by it where the block declares the name, and stands there once it is left.
fn outer_names_come_later(alloc: Global, env: &mut Environment) -> Result<bool, NoMemory> {
    let outer = Entity::Enumerator { bits: 1 };
    let inner = Entity::Enumerator { bits: 2 };
    env.open(alloc)?;
    env.declare(alloc, b"both", Binding::Own(inner))?;
    env.declare_around(alloc, b"both", Binding::Own(outer))?;
    env.declare_around(alloc, b"outer", Binding::Own(outer))?;
    let inside = env.look_up(b"both") == Some(inner) && env.look_up(b"outer") == Some(outer);
    env.close();
    Ok(inside && env.look_up_here(b"both") == Some(outer))
}

/// Whether a definition is kept of a name that has linkage, and of no other, and whether `main` may not be called where that is said.
fn more_is_said(env: &mut Environment) -> bool {
    env.set_definition(b"f", Definition::Defined);
    env.set_definition(b"g", Definition::Defined);
    env.set_strict(true);
    let defined = match env.linked(b"f") {
        Some(linked) => linked.definition == Definition::Defined,
        None => false,
    };
    defined && env.linked(b"g").is_none() && env.is_strict()
}

/// What all of them say in the scope of a file.
fn all_of_them(
    alloc: Global,
    env: &mut Environment,
) -> Result<(bool, bool, bool, bool, bool), NoMemory> {
    env.open(alloc)?;
    let names = inner_names_hide(alloc, env)?;
    let tags = tags_are_found_by_form(alloc, env)?;
    let around = outer_names_come_later(alloc, env)?;
    let linkage = linkage_is_of_the_text(alloc, env)?;
    Ok((names, tags, around, linkage, more_is_said(env)))
}

#[test]
fn names_and_tags_are_found_by_scope(rt: HostRuntime) -> Result<(), Fail> {
    let mut env = Environment::new(rt.alloc());
    let found = all_of_them(rt.alloc(), &mut env);
    drop(env);
    assert_eq!(rt; found?, (true, true, true, true, true));
    Ok(())
}
