// The calls of the bench program by their names.
#![tactic(auto)]

ghost use Rattle.std.specs.Prelude.{◌≡◌};
ghost use Rattle.bench_names.specs.Names.{call_alone, call_one, call_two, call_four};

use texts::same;

// The calls of transactions, with their numbers.
#[derive(Clone, Copy)]
pub enum TransactionCall {
    Begin(u32),
    Commit(u32),
    Abort(u32),
}

// The calls for a lock: transaction and page.
#[derive(Clone, Copy)]
pub enum LockCall {
    LockRead(u32, u32),
    LockWrite(u32, u32),
}

// The calls that a transaction makes on pages and objects.
#[derive(Clone, Copy)]
pub enum ObjectCall {
    Flush(u32, u32),
    Read(u32, u32),
    Create(u32, u32),
    Set(u32, u32, u32, u32),
}

// The calls that make something stable.
#[derive(Clone, Copy)]
pub enum StabilityCall {
    Store(u32),
    Force,
    Empty,
}

// The calls of a pass.
#[derive(Clone, Copy)]
pub enum PassCall {
    Pass,
    Step,
}

// The calls of a reopening.
#[derive(Clone, Copy)]
pub enum ReopeningCall {
    Reopen,
    Restep,
}

// One line of the bench program's input: a call with its numbers, or no call.
// NoCall is no `None`: bench_feeding's `Option<Command>` says whether a line ended, and two of them nested are no plainer.
#[derive(Clone, Copy)]
pub enum Command {
    Transaction(TransactionCall),
    Lock(LockCall),
    Object(ObjectCall),
    Stability(StabilityCall),
    Collection(PassCall),
    Reopening(ReopeningCall),
    NoCall,
}

// The call of a name with no numbers.
#[tactic(auto, unfolding(crate::specs::Names::call_alone))]
pub fn call_alone(name: &[u8]) -> Command
    ensures { result ≡ call_alone name.now }
{
    if same(name, b"force") {
        Command::Stability(StabilityCall::Force)
    } else if same(name, b"empty") {
        Command::Stability(StabilityCall::Empty)
    } else if same(name, b"pass") {
        Command::Collection(PassCall::Pass)
    } else if same(name, b"step") {
        Command::Collection(PassCall::Step)
    } else if same(name, b"reopen") {
        Command::Reopening(ReopeningCall::Reopen)
    } else if same(name, b"restep") {
        Command::Reopening(ReopeningCall::Restep)
    } else {
        Command::NoCall
    }
}

// The call of a name with one number.
#[tactic(auto, unfolding(crate::specs::Names::call_one))]
pub fn call_one(name: &[u8], a: u32) -> Command
    ensures { result ≡ call_one name.now a }
{
    if same(name, b"begin") {
        Command::Transaction(TransactionCall::Begin(a))
    } else if same(name, b"commit") {
        Command::Transaction(TransactionCall::Commit(a))
    } else if same(name, b"abort") {
        Command::Transaction(TransactionCall::Abort(a))
    } else if same(name, b"store") {
        Command::Stability(StabilityCall::Store(a))
    } else {
        Command::NoCall
    }
}

// The call of a name with two numbers.
#[tactic(auto, unfolding(crate::specs::Names::call_two))]
pub fn call_two(name: &[u8], a: u32, b: u32) -> Command
    ensures { result ≡ call_two name.now a b }
{
    if same(name, b"lockr") {
        Command::Lock(LockCall::LockRead(a, b))
    } else if same(name, b"lockw") {
        Command::Lock(LockCall::LockWrite(a, b))
    } else if same(name, b"flush") {
        Command::Object(ObjectCall::Flush(a, b))
    } else if same(name, b"read") {
        Command::Object(ObjectCall::Read(a, b))
    } else if same(name, b"create") {
        Command::Object(ObjectCall::Create(a, b))
    } else {
        Command::NoCall
    }
}

// The call of a name with four numbers.
#[tactic(auto, unfolding(crate::specs::Names::call_four))]
pub fn call_four(name: &[u8], a: u32, b: u32, c: u32, d: u32) -> Command
    ensures { result ≡ call_four name.now a b c d }
{
    if same(name, b"set") {
        Command::Object(ObjectCall::Set(a, b, c, d))
    } else {
        Command::NoCall
    }
}
