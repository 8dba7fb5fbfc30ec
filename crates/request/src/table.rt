// The label's commands, in one small table: what goes with a code stands in its row.
ghost use Rattle.std.specs.Prelude.{◌≡◌};
ghost use Rattle.request.specs.Table.{row_of, table, lookup, has_answer, option_fits};

// What a label is asked beside an Inventory.
#[derive(Clone, Copy)]
pub enum Task {
    Quiet,
    Read,
    Write,
    Lock,
    ReadMany,
    Select,
    Ready,
    WriteAfi,
    LockAfi,
    WriteDsfid,
    LockDsfid,
    Info,
    Status,
}

// What a task's success says.
#[derive(Clone, Copy)]
pub enum Success {
    // There is no answer.
    Never,
    Done,
    Block,
    Info,
    Blocks,
    Locks,
}

// A task's code, its frame's length without a UID, whether a block of the label's length follows, whether Option is allowed,
// whether it takes one UID only, and what a success says.
#[derive(Clone, Copy)]
pub struct Row {
    pub task: Task,
    pub code: u8,
    pub len: u8,
    pub block: bool,
    pub option: bool,
    pub one: bool,
    pub success: Success,
}

const QUIET: Row = Row {
    task: Task::Quiet,
    code: 0x02,
    len: 4,
    block: false,
    option: false,
    one: true,
    success: Success::Never,
};

const READ: Row = Row {
    task: Task::Read,
    code: 0x20,
    len: 5,
    block: false,
    option: true,
    one: false,
    success: Success::Block,
};

const WRITE: Row = Row {
    task: Task::Write,
    code: 0x21,
    len: 5,
    block: true,
    option: false,
    one: false,
    success: Success::Done,
};

const LOCK: Row = Row {
    task: Task::Lock,
    code: 0x22,
    len: 5,
    block: false,
    option: false,
    one: false,
    success: Success::Done,
};

const READ_MANY: Row = Row {
    task: Task::ReadMany,
    code: 0x23,
    len: 6,
    block: false,
    option: true,
    one: false,
    success: Success::Blocks,
};

const SELECT: Row = Row {
    task: Task::Select,
    code: 0x25,
    len: 4,
    block: false,
    option: false,
    one: true,
    success: Success::Done,
};

const READY: Row = Row {
    task: Task::Ready,
    code: 0x26,
    len: 4,
    block: false,
    option: false,
    one: false,
    success: Success::Done,
};

const WRITE_AFI: Row = Row {
    task: Task::WriteAfi,
    code: 0x27,
    len: 5,
    block: false,
    option: false,
    one: false,
    success: Success::Done,
};

const LOCK_AFI: Row = Row {
    task: Task::LockAfi,
    code: 0x28,
    len: 4,
    block: false,
    option: false,
    one: false,
    success: Success::Done,
};

const WRITE_DSFID: Row = Row {
    task: Task::WriteDsfid,
    code: 0x29,
    len: 5,
    block: false,
    option: false,
    one: false,
    success: Success::Done,
};

const LOCK_DSFID: Row = Row {
    task: Task::LockDsfid,
    code: 0x2A,
    len: 4,
    block: false,
    option: false,
    one: false,
    success: Success::Done,
};

const INFO: Row = Row {
    task: Task::Info,
    code: 0x2B,
    len: 4,
    block: false,
    option: false,
    one: false,
    success: Success::Info,
};

const STATUS: Row = Row {
    task: Task::Status,
    code: 0x2C,
    len: 6,
    block: false,
    option: false,
    one: false,
    success: Success::Locks,
};

const TABLE: [Row; 13] = [
    QUIET,
    READ,
    WRITE,
    LOCK,
    READ_MANY,
    SELECT,
    READY,
    WRITE_AFI,
    LOCK_AFI,
    WRITE_DSFID,
    LOCK_DSFID,
    INFO,
    STATUS,
];

// The row of a task.
#[tactic(auto, unfolding(crate::specs::Table::row_of))]
pub fn row_of(task: Task) -> Row
    ensures { result ≡ row_of task }
{
    match task {
        Task::Quiet => QUIET,
        Task::Read => READ,
        Task::Write => WRITE,
        Task::Lock => LOCK,
        Task::ReadMany => READ_MANY,
        Task::Select => SELECT,
        Task::Ready => READY,
        Task::WriteAfi => WRITE_AFI,
        Task::LockAfi => LOCK_AFI,
        Task::WriteDsfid => WRITE_DSFID,
        Task::LockDsfid => LOCK_DSFID,
        Task::Info => INFO,
        Task::Status => STATUS,
    }
}

// The row of a command's code.
pub fn find(code: u8) -> Option<Row>
    ensures { result ≡ lookup code table }
{
    TABLE.iter().copied().find(|row| row.code == code)
}

// Whether a success is said.
pub fn has_answer(success: Success) -> bool
    ensures { result ≡ has_answer success }
{
    !matches!(success, Success::Never)
}

// Whether a row allows the Option that a frame has.
pub fn option_fits(row: Row, option: bool) -> bool
    ensures { result ≡ option_fits row option }
{
    !option || row.option
}
