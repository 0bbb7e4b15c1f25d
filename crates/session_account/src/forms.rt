//! The two forms of a report, and what stands between its numbers in each.
ghost use Rattle.std.specs.Prelude.{◌≡◌};
ghost use Rattle.session_account.specs.Forms.{begin_of, end_of, other_of, mid_of, close_of, tail_of, sep_of};

/// The form of a report.
#[derive(Clone, Copy, Debug, PartialEq, Eq)]
pub enum Form {
    /// A line for each row: its name, and each of its numbers behind a name of its own.
    Table,
    /// One document of JSON (RFC 8259): an object for each row, and an array for rows of one kind.
    Json,
}

impl Form {
    /// What stands first.
    pub(crate) fn begin(self) -> &'static str
        ensures { result.now ≡ begin_of self }
    {
        match self {
            Form::Table => "",
            Form::Json => "{",
        }
    }

    /// What stands last.
    pub(crate) fn end(self) -> &'static str
        ensures { result.now ≡ end_of self }
    {
        match self {
            Form::Table => "",
            Form::Json => "}\n",
        }
    }

    /// What stands in front of a number's name where it isn't the first of its row.
    pub(crate) fn other(self) -> &'static str
        ensures { result.now ≡ other_of self }
    {
        match self {
            Form::Table => " ",
            Form::Json => ",\"",
        }
    }

    /// What stands between a number's name and the number.
    pub(crate) fn mid(self) -> &'static str
        ensures { result.now ≡ mid_of self }
    {
        match self {
            Form::Table => " ",
            Form::Json => "\":",
        }
    }

    /// What ends a row.
    pub(crate) fn close(self) -> &'static str
        ensures { result.now ≡ close_of self }
    {
        match self {
            Form::Table => "\n",
            Form::Json => "}",
        }
    }

    /// What ends rows of one kind.
    pub(crate) fn tail(self) -> &'static str
        ensures { result.now ≡ tail_of self }
    {
        match self {
            Form::Table => "",
            Form::Json => "]",
        }
    }

    /// What stands between two rows, and between two parts of a report.
    pub(crate) fn sep(self) -> &'static str
        ensures { result.now ≡ sep_of self }
    {
        match self {
            Form::Table => "",
            Form::Json => ",\n",
        }
    }
}
