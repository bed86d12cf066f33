/// A call, by what it writes into the buffer that comes last.
#[derive(Clone, Copy, Debug, PartialEq, Eq)]
pub enum Call {
    Nothing(NothingCall),
    Bytes(BytesCall),
    Numbers(NumbersCall),
}

/// A call that writes nothing.
#[derive(Clone, Copy, Debug, PartialEq, Eq)]
pub enum NothingCall {
    Check,
    Forks,
}

/// A call that writes bytes.
#[derive(Clone, Copy, Debug, PartialEq, Eq)]
pub enum BytesCall {
    File(FileCall),
    Search(SearchCall),
}

/// A call that writes a file, or the row of one.
#[derive(Clone, Copy, Debug, PartialEq, Eq)]
pub enum FileCall {
    WriteRules,
    ReadWishes,
    WriteWishes,
    WriteOpb,
}

/// A call that searches for a choice.
#[derive(Clone, Copy, Debug, PartialEq, Eq)]
pub enum SearchCall {
    Wish,
    Plain,
    Nearest,
}

/// A call that writes a list of numbers.
#[derive(Clone, Copy, Debug, PartialEq, Eq)]
pub enum NumbersCall {
    ReadRules,
    Rewrite,
}

/// Which values a case of a call has, in this order, before the buffer. A file that is read stands as a row.
#[derive(Clone, Copy)]
pub struct Form {
    pub n: bool,
    pub rules: bool,
    pub row: bool,
    pub d: bool,
    pub choice: bool,
}

// A form with no value.
const NONE: Form = Form {
    n: false,
    rules: false,
    row: false,
    d: false,
    choice: false,
};

impl Call {
    /// The call of a name.
    pub fn named(name: &[u8]) -> Option<Call> {
        match name {
            b"check" => Some(Call::Nothing(NothingCall::Check)),
            b"read_rules" => Some(Call::Numbers(NumbersCall::ReadRules)),
            b"write_rules" => Some(Call::Bytes(BytesCall::File(FileCall::WriteRules))),
            b"read_wishes" => Some(Call::Bytes(BytesCall::File(FileCall::ReadWishes))),
            b"write_wishes" => Some(Call::Bytes(BytesCall::File(FileCall::WriteWishes))),
            b"write_opb" => Some(Call::Bytes(BytesCall::File(FileCall::WriteOpb))),
            b"search" => Some(Call::Bytes(BytesCall::Search(SearchCall::Wish))),
            b"plain" => Some(Call::Bytes(BytesCall::Search(SearchCall::Plain))),
            b"nearest" => Some(Call::Bytes(BytesCall::Search(SearchCall::Nearest))),
            b"rewrite" => Some(Call::Numbers(NumbersCall::Rewrite)),
            b"forks" => Some(Call::Nothing(NothingCall::Forks)),
            _ => None,
        }
    }

    /// The values of a case of this call.
    pub fn form(self) -> Form {
        match self {
            Call::Nothing(call) => call.form(),
            Call::Bytes(BytesCall::File(call)) => call.form(),
            Call::Bytes(BytesCall::Search(call)) => call.form(),
            Call::Numbers(call) => call.form(),
        }
    }

    /// The longest row of a case, or file that is read: a rule file may have more bytes.
    pub fn longest_row(self) -> usize {
        match self {
            Call::Numbers(NumbersCall::ReadRules) => case_text::LONGEST_FILE,
            Call::Nothing(_) | Call::Bytes(_) | Call::Numbers(NumbersCall::Rewrite) => {
                case_text::LONGEST_ROW
            }
        }
    }
}

impl NothingCall {
    fn form(self) -> Form {
        match self {
            NothingCall::Check => Form {
                n: true,
                rules: true,
                row: true,
                choice: true,
                ..NONE
            },
            NothingCall::Forks => Form {
                n: true,
                rules: true,
                row: true,
                d: true,
                ..NONE
            },
        }
    }
}

impl FileCall {
    fn form(self) -> Form {
        match self {
            FileCall::WriteRules => Form {
                n: true,
                rules: true,
                ..NONE
            },
            FileCall::ReadWishes => Form { row: true, ..NONE },
            FileCall::WriteWishes => Form {
                n: true,
                row: true,
                d: true,
                ..NONE
            },
            FileCall::WriteOpb => Form {
                n: true,
                rules: true,
                row: true,
                d: true,
                ..NONE
            },
        }
    }
}

impl SearchCall {
    fn form(self) -> Form {
        match self {
            SearchCall::Wish => Form {
                n: true,
                rules: true,
                row: true,
                d: true,
                ..NONE
            },
            SearchCall::Plain => Form {
                n: true,
                rules: true,
                ..NONE
            },
            SearchCall::Nearest => Form {
                n: true,
                rules: true,
                row: true,
                ..NONE
            },
        }
    }
}

impl NumbersCall {
    fn form(self) -> Form {
        match self {
            NumbersCall::ReadRules => Form { row: true, ..NONE },
            NumbersCall::Rewrite => Form {
                n: true,
                rules: true,
                row: true,
                d: true,
                ..NONE
            },
        }
    }
}
