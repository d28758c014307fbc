// Why an operation is refused.
#![tactic(auto)]

ghost use Rattle.std.specs.Prelude.{◌≡◌};
ghost use Rattle.refusals.specs.Numbers.{number};

// Each case has a number in 01 or 02 (specs/Numbers.antt).
#[derive(Clone, Copy, Debug, PartialEq, Eq)]
pub enum Refusal {
    // make: cores not 1 to 4
    Cores,
    // make: memory not 1 to 4,096 whole pages
    Memory,
    // make: table length not that of the cores
    TableLength,
    // the tables are not sound
    Unsound,
    // the words are not a step
    NotAStep,
    // the machine has no next state by this step
    NoNextState,
    // a byte is in neither memory nor a port
    ByteNowhere,
    // a ninth pending store
    StoresFull,
    // a twenty-fourth walk
    WalksFull,
    NoFreeRecord,
    // run: schedule not of whole steps, or over 1,024
    Schedule,
    // the map's length is not the page count, or that of the words of a reason is not 18
    LentLength,
    // the group is empty, or names a core that is not there
    Group,
    // translate: the core is not there
    Core,
    // translate: more than 64 addresses
    Addresses,
    // translate: answers not three words an address
    AnswersLength,
    // disassemble: the text's length is not 32
    TextLength,
}

impl From<Refusal> for u32 {
    ghost from_gives = { λ r n. n ≡ number r };

    fn from(r: Refusal) -> u32 {
        match r {
            Refusal::Cores => 1,
            Refusal::Memory => 2,
            Refusal::TableLength => 3,
            Refusal::Unsound => 4,
            Refusal::NotAStep => 5,
            Refusal::NoNextState => 6,
            Refusal::ByteNowhere => 7,
            Refusal::StoresFull => 8,
            Refusal::WalksFull => 9,
            Refusal::NoFreeRecord => 10,
            Refusal::Schedule => 11,
            Refusal::LentLength => 12,
            Refusal::Group => 13,
            Refusal::Core => 14,
            Refusal::Addresses => 15,
            Refusal::AnswersLength => 16,
            Refusal::TextLength => 17,
        }
    }
}
