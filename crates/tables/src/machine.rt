// A machine as it stands, lent for reading: sound tables, and the memory beside them.
ghost use Rattle.std.specs.Prelude.{◌≡◌, true, false, ℕ, ◌*◌, ◌^◌, ◌<◌, ◌≤◌, length, get_or, MatchResult};
ghost use Rattle.layout.specs.Blocks.{block};
ghost use Rattle.refusals.specs.declared.Refusal.{Refusal};
ghost use Rattle.tables.specs.Views.{cores_of, pages_of};
ghost use Rattle.tables.specs.Sound.{sound, sound_block};

use layout::{CORES, PAGES};
use refusals::Refusal;

#[derive(Clone, Copy)]
pub struct Machine<'a> {
    pub tables: &'a [u32],
    pub memory: &'a [u8],
    pub ghost is_sound: { sound tables.now (length memory.now) ≡ true },
    pub ghost words: { (i : ℕ) → get_or tables.now i 0 < 2 ^ 32 },
    pub ghost bytes: { (i : ℕ) → get_or memory.now i 0 < 2 ^ 8 },
}

impl<'a> Machine<'a> {
    // Any words beside any bytes, where they are sound tables.
    pub fn new(tables: &'a [u32], memory: &'a [u8]) -> Result<Machine<'a>, Refusal>
        ensures { MatchResult result
            (λ machine. (machine.tables.now ≡ tables.now) × (machine.memory.now ≡ memory.now) × (sound tables.now (length memory.now) ≡ true))
            (λ refusal. (refusal ≡ Refusal.Unsound) × (sound tables.now (length memory.now) ≡ false)) }
    {
        if !super::sound(tables, memory.len()) {
            return Err(Refusal::Unsound);
        }
        Ok(Machine { tables, memory })
    }

    // How many cores it has, 1 to 4.
    pub fn cores(&self) -> u32
        ensures { (result ≡ cores_of self.now.tables.now) × (1 ≤ result) × (result ≤ 4) }
    {
        self.tables[CORES]
    }

    // How many pages its memory has, 1 to 4,096.
    pub fn pages(&self) -> u32
        ensures { (result ≡ pages_of self.now.tables.now) × (1 ≤ result) × (result ≤ 4096) × (length self.now.memory.now ≡ 4096 * result) }
    {
        self.tables[PAGES]
    }

    // The block of core k.
    pub fn block(&self, k: u32) -> &'a [u32]
        requires { k < cores_of self.now.tables.now }
        ensures value { (result.now ≡ block self.now.tables.now k) × (length result.now ≡ 256) }
        ensures is_sound { sound_block (length self.now.memory.now) (block self.now.tables.now k) ≡ true }
    {
        layout::block(self.tables, k)
    }
}
