ghost use Rattle.std.specs.Prelude.{◌≡◌, ◌≢◌, None, Some, IfOk, IfErr, OnOk, option_map, length, map, slice_get};
ghost use Rattle.mg_index.specs.Tables.{IsTable};
ghost use Rattle.mg_kinds.specs.Kinds.{names_of};
ghost use Rattle.mg_check.specs.Names.{is_name_among, first_again, first_missing, number_among};
ghost use Rattle.mg_index.specs.Places.{is_text};
ghost use Rattle.mg_check.specs.declared.fault.CheckFault.TheVariants.{TwoProducers};

use crate::fault::CheckFault;
use mg_index::NameTable;
use mg_value::{BlockList, MgText, NumberList};
use std::alloc::{AllocError, Global};
use std::borrow::CowStr;
use std::marker::Model;

/// The most names that a list may have: fewer than 2^32, since there is no memory for so many.
const MOST_NAMES: usize = (1 << 32) - 1;

/// Names in order, no two the same. Contracts see them as the list of the texts.
#[derive(Drop)]
pub(crate) struct Names<'a> {
    table: NameTable<'a>,
}

impl<'a> Model for Names<'a> {
    ghost use Rattle.std.specs.Prelude.{ℕ, List, length, ◌<◌, ◌^◌};
    ghost use Rattle.mg_index.specs.Tables.{kept_names, IsTable};
    ghost use Rattle.mg_index.specs.Places.{is_text};

    ghost Value = { List (List ℕ) };

    ghost view = { λ n. kept_names n.table };

    ghost invariant = { λ n. (length (kept_names n.table) < 2 ^ 32) × IsTable is_text n.table (kept_names n.table) };
}

// Returns the table of texts. Each text counts as a name, also the empty text.
fn table_of<'a>(alloc: Global, texts: &[&'a str]) -> Result<NameTable<'a>, AllocError>
    ensures { IfOk result (λ table. IsTable is_text table (names_of texts.now)) }
{
    let mut table = NameTable::new(alloc);
    for place in 0..texts.len() {
        table.insert(CowStr::Borrowed(texts[place]), place)?;
    }
    Ok(table)
}

impl<'a> Names<'a> {
    /// Returns texts as names, or refuses the first that stands again later: it has two producers.
    pub(crate) fn of(alloc: Global, texts: &[&'a str]) -> Result<Names<'a>, CheckFault>
        ensures ok { IfOk result (λ names. names ≡ names_of texts.now) }
        ensures once { OnOk result (first_again (names_of texts.now) ≡ None) }
        ensures err { IfErr result (λ fault. fault ≢ CheckFault.OutOfMemory → option_map TwoProducers (first_again (names_of texts.now)) ≡ Some fault) }
    {
        let table = table_of(alloc, texts)?;
        match table.again() {
            Some(place) => Err(CheckFault::TwoProducers {
                name: MgText::new(alloc, texts[place])?,
            }),
            None => {
                if table.len() > MOST_NAMES {
                    return Err(CheckFault::OutOfMemory);
                }
                Ok(Names { table })
            }
        }
    }

    /// Returns how many names there are.
    pub(crate) fn len(&self) -> u32
        ensures { result ≡ length self.now }
    {
        self.table.len() as u32
    }

    /// Returns the name at a place, or none past the last.
    pub(crate) fn get(&self, place: u32) -> Option<&str>
        ensures { option_map (λ name. name.now) result ≡ slice_get self.now place }
    {
        self.table.name(place as usize)
    }

    /// Whether a name is in the list.
    #[tactic(auto, using(crate::proofs::Placed::has_among))]
    pub(crate) fn has(&self, name: &str) -> bool
        ensures { result ≡ is_name_among self.now name.now }
    {
        self.table.get(name).is_some()
    }

    /// Returns the number of a name: its place in the list, or 0 if it isn't there.
    #[tactic(auto, using(crate::proofs::Placed::place_within, crate::proofs::Placed::number_found, crate::proofs::Placed::number_missing))]
    pub(crate) fn number(&self, name: &str) -> u32
        ensures { result ≡ number_among self.now name.now }
    {
        match self.table.get(name) {
            Some(place) => place as u32,
            None => 0,
        }
    }
}

/// Returns the first text that isn't among the names, or none if all are.
pub(crate) fn missing_in<'a>(names: &Names, texts: &[&'a str]) -> Option<&'a str>
    ensures { option_map (λ name. name.now) result ≡ first_missing names.now (names_of texts.now) }
{
    for text in texts {
        if !names.has(*text) {
            return Some(*text);
        }
    }
    None
}

/// Returns the number of each text among the names.
pub(crate) fn numbers_of(
    alloc: Global,
    names: &Names,
    texts: &[&str],
) -> Result<NumberList, AllocError>
    ensures { IfOk result (λ numbers. numbers ≡ map (number_among names.now) (names_of texts.now)) }
{
    let mut numbers = Vec::new(alloc);
    for text in texts {
        numbers.push(names.number(*text))?;
    }
    Ok(BlockList::from_vec(numbers)?)
}
