//! The words of derivations.
ghost use Rattle.std.specs.Prelude.{◌≡◌};
ghost use Rattle.books.specs.Derivations.{word_text};

/// What a node of a derivation stands for in a body. `Un` is a unary operation, `Bin` a binary one, `Set` an assignment to
/// a local, `Put` one to a field, `Do` an expression as a statement, `Skip` the empty statement.
#[derive(Clone, Copy, Debug, PartialEq, Eq, Hash)]
pub enum Word {
    Lit,
    This,
    Var,
    Un,
    Bin,
    And,
    Or,
    Get,
    New,
    Call,
    Local,
    Set,
    Put,
    Block,
    If,
    While,
    Sync,
    Return,
    Print,
    Start,
    Do,
    Skip,
}

impl Word {
    /// How the word is written in books.
    pub fn name(self) -> &'static str
        ensures { result.now ≡ word_text self }
    {
        match self {
            Word::Lit => "lit",
            Word::This => "this",
            Word::Var => "var",
            Word::Un => "un",
            Word::Bin => "bin",
            Word::And => "and",
            Word::Or => "or",
            Word::Get => "get",
            Word::New => "new",
            Word::Call => "call",
            Word::Local => "local",
            Word::Set => "set",
            Word::Put => "put",
            Word::Block => "block",
            Word::If => "if",
            Word::While => "while",
            Word::Sync => "sync",
            Word::Return => "return",
            Word::Print => "print",
            Word::Start => "start",
            Word::Do => "do",
            Word::Skip => "skip",
        }
    }
}
