//! Numbers for the names of files, so that a file that was asked for is found at once.
use crate::opened::DiskFault;
use outside::{FileName, Part};
use std::alloc::Global;
use std::collections::HashMap;

// A relation or a log.
#[derive(Drop)]
struct Base {
    path: String,
    is_log: bool,
}

impl Base {
    fn is_of(&self, name: FileName<'_>) -> bool {
        self.is_log == matches!(name.part, Part::Slru(_)) && self.path.as_str() == name.base
    }
}

// A file of the base with this place in the list of bases.
#[derive(Clone, Copy, PartialEq, Eq, Hash)]
struct Key {
    base: usize,
    part: u32,
}

fn number_of(part: Part) -> u32 {
    match part {
        Part::Segment(number) => number,
        Part::Slru(number) => number,
    }
}

/// Which names have a number. The name that was found last is found first, without the table.
#[derive(Drop)]
pub(crate) struct NameNumbers {
    bases: Vec<Base>,
    numbers: HashMap<Key, usize>,
    last: Option<(Key, usize)>,
}

impl NameNumbers {
    /// No names.
    pub fn new(alloc: Global) -> NameNumbers {
        NameNumbers {
            bases: Vec::new(alloc),
            numbers: HashMap::new(alloc),
            last: None,
        }
    }

    // The place of a name's base in the list.
    fn base_of(&self, name: FileName<'_>) -> Option<usize> {
        if let Some((key, _)) = self.last {
            if key.base < self.bases.len() && self.bases[key.base].is_of(name) {
                return Some(key.base);
            }
        }
        self.bases.iter().position(|base| base.is_of(name))
    }

    /// The number of a name, if it has one.
    pub fn find(&mut self, name: FileName<'_>) -> Option<usize> {
        let key = Key {
            base: self.base_of(name)?,
            part: number_of(name.part),
        };
        if let Some((last, number)) = self.last {
            if last == key {
                return Some(number);
            }
        }
        let number = *self.numbers.get(&key)?;
        self.last = Some((key, number));
        Some(number)
    }

    /// Gives a name a number.
    pub fn add(
        &mut self,
        alloc: Global,
        name: FileName<'_>,
        number: usize,
    ) -> Result<(), DiskFault> {
        let base = match self.base_of(name) {
            Some(base) => base,
            None => {
                let path = String::from_str(alloc, name.base)?;
                let is_log = matches!(name.part, Part::Slru(_));
                self.bases.push(Base { path, is_log })?;
                self.bases.len() - 1
            }
        };
        let part = number_of(name.part);
        self.numbers.insert(Key { base, part }, number)?;
        Ok(())
    }
}
