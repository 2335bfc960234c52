//! What is declared where the expressions of the rows stand:
//!
//!     enum { five = 5, none };    typedef char T;    struct s { int a; char *b; };    struct t;    typedef struct s S;
//!     struct o { char d; int e[4]; struct s i; long l; };
//!     int n; unsigned u; char c; unsigned char k; short h; unsigned short m; long w; unsigned long v; long long j; _Bool truth;
//!     void *p; int *q; char *r; char row[3]; int grid[2][3]; struct s x, *y; struct t *z; struct o x2, *y2; char vast[70000];
//!     extern int open[];    extern int missing;    int f(int, char *); void g(void); int lost(void); int byval(struct s);
//!     void *malloc(unsigned long); void *calloc(unsigned long, unsigned long); void free(void *);
//!     void *memset(void *, int, unsigned long); void *memcpy(void *, void *, unsigned long);
//!
//! The text defines all objects but `missing`, and the functions `f`, `g` and `byval`. `missing` and `lost` have no definition, `count` is an int parameter of `main`, and `args` one of another function, written `int args[3]`, which is a pointer. The last five functions are built in. What has the type
//! `unsigned long` here has `unsigned long long` where a long has 4 bytes, for sizes.
use crate::naming::{Kind, declare_rows, structure};
use crate::types::{Base, Written};
use cbase::{Abi, NoMemory};
use expressions::Context;

const CHAR: Base = Base::Integer {
    bytes: 1,
    signed: true,
};

const UNSIGNED_CHAR: Base = Base::Integer {
    bytes: 1,
    signed: false,
};

const SHORT: Base = Base::Integer {
    bytes: 2,
    signed: true,
};

const UNSIGNED_SHORT: Base = Base::Integer {
    bytes: 2,
    signed: false,
};

const INT: Base = Base::Integer {
    bytes: 4,
    signed: true,
};

const UNSIGNED: Base = Base::Integer {
    bytes: 4,
    signed: false,
};

const LONG: Base = Base::Long { signed: true };

const UNSIGNED_LONG: Base = Base::Long { signed: false };

const LONG_LONG: Base = Base::Integer {
    bytes: 8,
    signed: true,
};

const SIZE: Written = Written::Of(Base::Integer {
    bytes: 8,
    signed: false,
});

const VOID: Written = Written::Of(Base::Void);

const AT: Written = Written::PointerTo(Base::Void);

const S: Base = Base::Struct(0);

const T: Base = Base::Struct(1);

const O: Base = Base::Struct(2);

/// The members of `struct s`.
const OF_S: [(&[u8], Written); 2] = [(b"a", Written::Of(INT)), (b"b", Written::PointerTo(CHAR))];

/// The members of `struct o`.
const OF_O: [(&[u8], Written); 4] = [
    (b"d", Written::Of(CHAR)),
    (b"e", Written::ArrayOf(INT, 4)),
    (b"i", Written::Of(S)),
    (b"l", Written::Of(LONG)),
];

/// What the text does not define, each with its type and those of its parameters: constants, the incomplete struct, typedefs, and what has no definition or is built in.
const NOT_DEFINED: [(&[u8], Kind, Written, &[Written]); 12] = [
    (b"five", Kind::Constant(5), Written::Of(INT), &[]),
    (b"none", Kind::Constant(0), Written::Of(INT), &[]),
    (b"t", Kind::Incomplete, Written::Of(T), &[]),
    (b"T", Kind::Typedef, Written::Of(CHAR), &[]),
    (b"S", Kind::Typedef, Written::Of(S), &[]),
    (b"missing", Kind::Object, Written::Of(INT), &[]),
    (b"lost", Kind::Function, Written::Of(INT), &[]),
    (b"malloc", Kind::BuiltIn, AT, &[SIZE]),
    (b"calloc", Kind::BuiltIn, AT, &[SIZE, SIZE]),
    (b"free", Kind::BuiltIn, VOID, &[AT]),
    (b"memset", Kind::BuiltIn, AT, &[AT, Written::Of(INT), SIZE]),
    (b"memcpy", Kind::BuiltIn, AT, &[AT, AT, SIZE]),
];

/// What the text defines: all objects but `missing`, and the functions with a body.
const DEFINED: [(&[u8], Kind, Written, &[Written]); 27] = [
    (b"count", Kind::OfMain, Written::Of(INT), &[]),
    (b"open", Kind::Unsized, Written::Of(INT), &[]),
    (b"args", Kind::Parameter, Written::PointerTo(INT), &[]),
    (b"n", Kind::Object, Written::Of(INT), &[]),
    (b"u", Kind::Object, Written::Of(UNSIGNED), &[]),
    (b"c", Kind::Object, Written::Of(CHAR), &[]),
    (b"k", Kind::Object, Written::Of(UNSIGNED_CHAR), &[]),
    (b"h", Kind::Object, Written::Of(SHORT), &[]),
    (b"m", Kind::Object, Written::Of(UNSIGNED_SHORT), &[]),
    (b"w", Kind::Object, Written::Of(LONG), &[]),
    (b"v", Kind::Object, Written::Of(UNSIGNED_LONG), &[]),
    (b"j", Kind::Object, Written::Of(LONG_LONG), &[]),
    (b"truth", Kind::Object, Written::Of(Base::Bool), &[]),
    (b"p", Kind::Object, AT, &[]),
    (b"q", Kind::Object, Written::PointerTo(INT), &[]),
    (b"r", Kind::Object, Written::PointerTo(CHAR), &[]),
    (b"z", Kind::Object, Written::PointerTo(T), &[]),
    (b"x", Kind::Object, Written::Of(S), &[]),
    (b"y", Kind::Object, Written::PointerTo(S), &[]),
    (b"x2", Kind::Object, Written::Of(O), &[]),
    (b"y2", Kind::Object, Written::PointerTo(O), &[]),
    (b"row", Kind::Object, Written::ArrayOf(CHAR, 3), &[]),
    (b"grid", Kind::Object, Written::GridOf(INT, 2, 3), &[]),
    (b"vast", Kind::Object, Written::ArrayOf(CHAR, 70_000), &[]),
    (
        b"f",
        Kind::Function,
        Written::Of(INT),
        &[Written::Of(INT), Written::PointerTo(CHAR)],
    ),
    (b"g", Kind::Function, VOID, &[]),
    (
        b"byval",
        Kind::Function,
        Written::Of(INT),
        &[Written::Of(S)],
    ),
];

/// Where the expressions stand.
#[derive(Clone, Copy)]
pub enum Around {
    /// In the body of a function whose result is an `int`.
    IntFunction,
    /// In that of a function without a result.
    VoidFunction,
    /// Outside of functions.
    File,
}

/// Declares all of this in a data layout. The struct `s` has the number 0, `t` 1 and `o` 2.
pub fn declare(context: &mut Context, abi: Abi, around: Around) -> Result<(), NoMemory> {
    let alloc = context.alloc;
    let result = match around {
        Around::IntFunction => Some(context.integer(4, true)?),
        Around::VoidFunction => Some(context.void()?),
        Around::File => None,
    };
    context.set_function(result);
    context.enter(alloc)?;
    structure(context, abi, b"s", &OF_S)?;
    declare_rows(context, abi, &NOT_DEFINED, false)?;
    structure(context, abi, b"o", &OF_O)?;
    declare_rows(context, abi, &DEFINED, true)
}
