// The entries that were read, kept with their addresses in arrays, so that none is read twice (specs/inner/Cache.antt).
// A slot holds one more than the place of an address with that slot, the last one kept, and 0 where there is none: it
// says at once that an address is new, or where it most likely stands.
ghost use Rattle.std.specs.Prelude.{◌≡◌, [], ◌∷◌, ◌<◌, eqb, take};
ghost use Rattle.std.specs.List.{position};
ghost use Rattle.tlb.specs.Walks.{entry_at};
ghost use Rattle.translate.specs.inner.Cache as x;

// Entries of a memory, `kept` of them, with their addresses in the order in which they were first asked for.
#[derive(Drop)]
pub struct Cache<'a> {
    pub memory: &'a [u8],
    pub kept: usize,
    pub keys: [u32; 128],
    pub words: [u32; 128],
    pub slots: [u8; 1024],
    pub ghost cached: { x.Cached memory.now kept keys words slots },
}

fn slot(at: u32) -> usize
    ensures { result ≡ x.slot_of at }
{
    ((at / 4 + 633 * (at / 4096)) % 1024) as usize
}

impl<'a> Cache<'a> {
    // With no entry yet.
    pub fn new(memory: &'a [u8]) -> Cache<'a>
        ensures { (result.memory.now ≡ memory.now) × (result.kept ≡ 0) }
    {
        Cache {
            memory,
            kept: 0,
            keys: [0; 128],
            words: [0; 128],
            slots: [0; 1024],
        }
    }

    // Looks through all addresses.
    fn search(&self, at: u32) -> Option<usize>
        ensures { result ≡ position (λ key. eqb key at) (take self.now.kept self.now.keys) }
    {
        self.keys[..self.kept].iter().position(|key| *key == at)
    }

    // Where an address stands.
    fn find(&self, at: u32) -> Option<usize>
        ensures { x.Finds at self.now.kept self.now.keys result }
    {
        let next = self.slots[slot(at)];
        if next == 0 {
            return None;
        }
        // A slot is a guess: whether it names a place that is kept is asked here and not proved.
        let guess = usize::from(next);
        if guess <= self.kept {
            let i = guess - 1;
            if self.keys[i] == at {
                return Some(i);
            }
        }
        self.search(at)
    }

    // The entry at an address: it is read if its bytes are in memory and it was not read before.
    pub fn entry(&mut self, at: u32) -> Option<u32>
        requires { self.old.kept < 128 }
        ensures value { result ≡ entry_at self.old.memory.now at }
        ensures asked { x.Asked self.old.memory.now (at ∷ []) self.old.kept self.old.keys self.new.kept self.new.keys self.new.words self.new.slots }
        ensures same { self.new.memory.now ≡ self.old.memory.now }
    {
        let a = at as usize;
        if self.memory.len() < a + 4 {
            return None;
        }
        if let Some(i) = self.find(at) {
            return Some(self.words[i]);
        }
        let e = word::read_word(self.memory, a);
        let n = self.kept;
        let more = n + 1;
        let s = slot(at);
        self.keys[n] = at;
        self.words[n] = e;
        self.slots[s] = more as u8;
        self.kept = more;
        Some(e)
    }
}
