ghost use Rattle.std.specs.Prelude.{◌≡◌};
ghost use Rattle.edge_main.specs.Statuses.{code_of, said_of};

/// How a run ended.
#[derive(Clone, Copy, Debug, PartialEq, Eq)]
pub enum Status {
    /// The input was read to its end, and no item was bad.
    Done,
    /// The words are no command of this call.
    Usage,
    /// The input was read to its end, and a line was no item.
    BadItems,
    ReadFault,
    WriteFault,
    Memory,
    AcceptFault,
    /// 2^40 bytes were taken.
    LongInput,
    Spent,
}

impl Status {
    /// The number that the process ends with.
    pub fn code(self) -> u8
        ensures { result ≡ code_of self }
    {
        match self {
            Status::Done => 0,
            Status::Usage => 2,
            Status::BadItems => 3,
            Status::ReadFault => 5,
            Status::WriteFault => 6,
            Status::Memory => 7,
            Status::AcceptFault => 8,
            Status::LongInput => 9,
            Status::Spent => 10,
        }
    }

    /// What the operator is told, with its newline.
    pub fn said(self) -> &'static [u8]
        ensures { result.now ≡ said_of self }
    {
        match self {
            Status::Done | Status::BadItems => b"",
            Status::Usage => b"edge: usage\n",
            Status::ReadFault => b"edge: read fault\n",
            Status::WriteFault => b"edge: write fault\n",
            Status::Memory => b"edge: no memory\n",
            Status::AcceptFault => b"edge: accept fault\n",
            Status::LongInput => b"edge: input too long\n",
            Status::Spent => b"edge: steps spent\n",
        }
    }
}
