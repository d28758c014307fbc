// The words of the tables, by name: specs/Layout.antt says what each is.
#![tactic(auto)]

ghost use Rattle.std.specs.Prelude.{◌≡◌, ◌+◌, ◌<◌, ◌≤◌, length};
ghost use Rattle.layout.specs.Layout.{header_words, block_at, block_words};
ghost use Rattle.layout.specs.Blocks as part;
ghost use Rattle.layout.specs.Lines.{line_set};

pub const HEADER_WORDS: usize = 32;

pub const CORES: usize = 0;

pub const PAGES: usize = 1;

pub const REFUSALS: usize = 2;

pub const LINES: usize = 3;

pub const IOREGSEL: usize = 4;

pub const IOWIN: usize = 5;

pub const REDIRECT: usize = 6;

pub const HEADER_REST: usize = 30;

pub const HEADER_REST_WORDS: usize = 2;

pub const PERIOD: usize = 30;

pub const LEFT: usize = 31;

pub const BLOCK_WORDS: usize = 256;

pub const GPR: usize = 0;

pub const SPR: usize = 32;

pub const PC: usize = 64;

pub const HI: usize = 65;

pub const LO: usize = 66;

pub const RUNNING: usize = 67;

pub const STORE_HEAD: usize = 68;

pub const WALK_HEAD: usize = 69;

pub const FREE_HEAD: usize = 70;

pub const BLOCK_GAP: usize = 71;

pub const PORTS: usize = 72;

pub const EOIPENDING: usize = 104;

pub const SIPIRR: usize = 112;

pub const SIPIVECT: usize = 113;

pub const INITRR: usize = 114;

pub const CORE_REFUSALS: usize = 115;

pub const BLOCK_REST: usize = 116;

pub const BLOCK_REST_WORDS: usize = 12;

pub const RECORDS: usize = 128;

pub const RECORD_WORDS: usize = 4;

pub const LOCAL_PORTS: usize = 0xFFFF_F000;

pub const LOCAL_PORT_BYTES: usize = 128;

pub const IO_PORTS: usize = 0xFFFF_E000;

pub const IO_PORT_BYTES: usize = 8;

pub const TIMER_PORTS: usize = 0xFFFF_D000;

pub const TIMER_PORT_BYTES: usize = 8;

// Special registers (table 5).
pub const SR: usize = 0;

pub const ESR: usize = 1;

pub const ECA: usize = 2;

pub const EPC: usize = 3;

pub const EDATA: usize = 4;

pub const PTO: usize = 5;

pub const ASID: usize = 6;

pub const MODE: usize = 7;

pub const PAGE_BYTES: usize = 4096;

pub const MOST_PAGES: usize = 4096;

pub const MOST_CORES: u32 = 4;

// Where the block of core k starts.
pub fn block_at(k: u32) -> usize
    ensures { result ≡ block_at k }
{
    HEADER_WORDS + BLOCK_WORDS * (k as usize)
}

// The block of core k.
pub fn block(t: &[u32], k: u32) -> &[u32]
    requires { block_at k + block_words ≤ length t.now }
    ensures { (result.now ≡ part.block t.now k) × (length result.now ≡ block_words) }
{
    let a = block_at(k);
    let e = a + BLOCK_WORDS;
    &t[a..e]
}

// Line l is set to a level.
pub fn set_line(t: &mut [u32], l: u32, level: u32)
    requires { (header_words ≤ length t.old) × (l < 24) × (level < 2) }
    ensures { t.new ≡ line_set t.old l level }
{
    t[LINES] = word::put_bit(t[LINES], l, level);
}
