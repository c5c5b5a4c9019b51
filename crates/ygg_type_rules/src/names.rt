ghost use Rattle.std.specs.Prelude.{◌≡◌, [], length, take, OnOk, OnErr};
ghost use Rattle.std.specs.Option.{option_copied};
ghost use Rattle.ygg_type_rules.specs.Names.{look_up, has, added};

use indexmap::IndexMap;
use std::alloc::Global;
use std::marker::Model;
use ygg_list::NoMemory;

/// Values by name, in the order in which the names were added. Contracts see the list of names and values.
#[derive(Drop)]
pub struct Names<'a, V> {
    entries: IndexMap<&'a [u8], V>,
}

impl<'a, V> Model for Names<'a, V> {
    ghost use Rattle.std.specs.Prelude.{ℕ, List, map};

    ghost Value = { List (List ℕ × V) };

    ghost view = { λ names. map (λ e. (e.0.now, e.1)) names.entries.entries };
}

impl<'a, V: Drop> Names<'a, V> {
    /// No names. It takes no memory.
    pub fn new(alloc: Global) -> Names<'a, V>
        ensures { result ≡ [] }
    {
        Names {
            entries: IndexMap::new(alloc),
        }
    }

    /// How many names there are.
    pub fn len(&self) -> usize
        ensures { result ≡ length self.now }
    {
        self.entries.len()
    }

    /// The value of a name.
    pub fn find(&self, name: &[u8]) -> Option<&V>
        ensures { option_copied result ≡ look_up name.now self.now }
    {
        self.entries.get(name)
    }

    /// Whether the name is there.
    pub fn has(&self, name: &[u8]) -> bool
        ensures { result ≡ has name.now self.now }
    {
        self.entries.contains_key(name)
    }

    /// Adds a name at the end; a name that is there keeps its value. After running out of memory the names are as before.
    pub fn add(&mut self, name: &'a [u8], value: V) -> Result<(), NoMemory>
        ensures ok { OnOk result (self.new ≡ added name.now value self.old) }
        ensures err { OnErr result (self.new ≡ self.old) }
    {
        if !self.has(name) {
            self.entries.insert(name, value)?;
        }
        Ok(())
    }

    /// Keeps the first so many names.
    pub fn truncate(&mut self, count: usize)
        ensures { self.new ≡ take count self.old }
    {
        self.entries.truncate(count);
    }
}
