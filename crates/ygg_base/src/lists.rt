use std::alloc::Global;
use ygg_list::{Duplicate, NoMemory, Sequence};

/// Bytes.
pub type Text = Sequence<u8>;

/// Truth values, as those of picks.
pub type Bits = Sequence<bool>;

/// Numbers.
pub type Numbers = Sequence<u64>;

/// A file by its name and its bytes.
#[derive(Drop)]
pub struct Held {
    pub name: Text,
    pub bytes: Text,
}

impl Duplicate for Held {
    fn duplicate(&self, alloc: Global) -> Result<Held, NoMemory> {
        let name = self.name.copy(alloc)?;
        let bytes = self.bytes.copy(alloc)?;
        Ok(Held { name, bytes })
    }
}

/// Files in order.
pub type Files = Sequence<Held>;
