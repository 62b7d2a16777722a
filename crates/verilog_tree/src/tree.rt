// The tree of a module. A name is a number into the module's list of names.
use mr_values::Text;

/// A binary operator.
#[derive(Clone, Copy, PartialEq, Eq, Debug)]
pub enum Op {
    Add,
    Sub,
    Less,
    LessEqual,
    Greater,
    GreaterEqual,
    Equal,
    NotEqual,
    And,
    Xor,
    Or,
}

/// A shift: `<<`, `>>`, `<<<` or `>>>`.
#[derive(Clone, Copy, PartialEq, Eq, Debug)]
pub enum ShiftOp {
    Left,
    Right,
    ArithLeft,
    ArithRight,
}

/// An expression.
#[derive(Debug, Drop)]
pub enum Expr {
    /// A signal.
    Name(usize),
    /// One bit of a signal, by its place from 0.
    Bit(usize, u32),
    /// The bits of a signal from a high place down to a low one.
    Part(usize, u32, u32),
    /// A decimal number without a size: 32 bits, signed.
    Plain(u32),
    /// A number with a size in bits.
    Based { width: u8, signed: bool, bits: u128 },
    /// A concatenation, the first member highest.
    Cat(Vec<Expr>),
    Not(Box<Expr>),
    Binary(Op, Box<Expr>, Box<Expr>),
    /// A shift by a number of places.
    Shift(ShiftOp, Box<Expr>, u8),
    /// `condition ? first : second`.
    Cond(Box<Expr>, Box<Expr>, Box<Expr>),
}

/// A statement of an always block.
#[derive(Debug, Drop)]
pub enum Stmt {
    Block(Vec<Stmt>),
    If(Expr, Box<Stmt>, Option<Box<Stmt>>),
    /// `register <= value;`.
    Set(usize, Expr),
}

/// What a signal is.
#[derive(Clone, Copy, PartialEq, Eq, Debug)]
pub enum Kind {
    Input,
    Output,
    Wire,
    Reg,
}

/// The declaration of a signal. Its width is in bits; its place is the byte at which its name begins there.
#[derive(Clone, Copy, PartialEq, Eq, Debug)]
pub struct Signal {
    pub name: usize,
    pub kind: Kind,
    pub signed: bool,
    pub ranged: bool,
    pub width: u32,
    pub place: u64,
}

/// A continuous assignment.
#[derive(Debug, Drop)]
pub struct Assign {
    pub target: usize,
    pub value: Expr,
}

/// A module: the number of its own name, its names in the order of their first appearance, its signals
/// in the order of their declarations, its assignments and its always blocks.
#[derive(Debug, Drop)]
pub struct Module {
    pub name: usize,
    pub names: Vec<Text>,
    pub signals: Vec<Signal>,
    pub assigns: Vec<Assign>,
    pub blocks: Vec<Stmt>,
}
