// The lock of CR and that of OPTCR: two key words in order open it (document 01, "Calls"; PM0059 2.5.1, 2.6.2).
#![tactic(auto)]

ghost use Rattle.std.specs.Prelude.{◌≡◌};
ghost use Rattle.lock.specs.Keys.{keyed, is_open, lock_at, keyr_keys, optkeyr_keys};
ghost use Rattle.lock.specs.declared.LockState.TheVariants.{Closed, Dead};

#[derive(Clone, Copy)]
pub enum LockState {
    Open,
    // The two keys open it.
    Closed,
    // The first key was given.
    HalfOpen,
    // No key opens it before a reset.
    Dead,
}

// A struct with one field, since document 01's list of forms asks for one lock struct, with methods by value.
#[derive(Clone, Copy)]
pub struct Lock {
    pub state: LockState,
}

// What a wrong word leaves: a lock that no key opens before a reset.
#[derive(Clone, Copy)]
pub struct WrongWord {
    pub lock: Lock,
}

#[derive(Clone, Copy)]
pub struct Keys {
    pub first: u32,
    pub second: u32,
}

// The words that KEYR takes, for CR.
pub fn keyr_keys() -> Keys
    ensures { result ≡ keyr_keys }
{
    Keys {
        first: 0x4567_0123,
        second: 0xCDEF_89AB,
    }
}

// The words that OPTKEYR takes, for OPTCR.
pub fn optkeyr_keys() -> Keys
    ensures { result ≡ optkeyr_keys }
{
    Keys {
        first: 0x0819_2A3B,
        second: 0x4C5D_6E7F,
    }
}

impl Lock {
    // A lock after a reset, or after a write that sets LOCK or OPTLOCK.
    pub fn closed() -> Lock
        ensures { result ≡ lock_at Closed }
    {
        Lock {
            state: LockState::Closed,
        }
    }

    // A lock after a wrong word.
    pub fn dead() -> Lock
        ensures { result ≡ lock_at Dead }
    {
        Lock {
            state: LockState::Dead,
        }
    }

    pub fn is_open(self) -> bool
        ensures { result ≡ is_open self }
    {
        matches!(self.state, LockState::Open)
    }

    // "A wrong word, or any word once open, closes that lock until reset, and each later word is wrong" (document 01). The lock comes back with
    // either verdict.
    pub fn key(self, word: u32, keys: Keys) -> Result<Lock, WrongWord>
        ensures { result ≡ keyed self word keys }
    {
        let state = match self.state {
            LockState::Closed if word == keys.first => LockState::HalfOpen,
            LockState::HalfOpen if word == keys.second => LockState::Open,
            _ => return Err(WrongWord { lock: Lock::dead() }),
        };
        Ok(Lock { state })
    }
}
