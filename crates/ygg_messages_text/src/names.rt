//! The names of a file's obligations, and those that it declares: the one that a word is nearest to.

use crate::tokens::{before, behind, is_symbol, keyword_at, name_at, tokens_in};
use std::alloc::{AllocError, Global};
use std::str;
use strsim::osa_distance;
use ygg_base::{Keyword, Mark, Symbol, Token};

/// The longest name that a word is compared with, and the longest word.
const LONGEST: usize = 200;

/// What has been met of the names: how many there are, and the one that the word is nearest to so far, with how far it is.
#[derive(Drop)]
struct Met {
    count: u64,
    nearest: String,
    least: usize,
}

impl Met {
    /// Meets the name of an obligation. One that ends with the word is the nearest: often the layer is left out.
    fn meet(&mut self, alloc: Global, word: &str, name: String) -> Result<(), AllocError> {
        self.count = self.count.saturating_add(1);
        if name.len() > LONGEST {
            return Ok(());
        }
        let slips = if name.as_str().ends_with(word) {
            0
        } else {
            osa_distance(alloc, word, name.as_str())?
        };
        if slips < self.least {
            self.least = slips;
            self.nearest = name;
        }
        Ok(())
    }

    /// Meets the obligations that each layer has.
    fn meet_layer(&mut self, alloc: Global, word: &str, layer: &str) -> Result<(), AllocError> {
        for what in ["init", "idle", "again"] {
            self.meet(alloc, word, format!(in alloc; "{layer}.{what}")?)?;
        }
        Ok(())
    }

    /// Meets the obligations of an operation or of a background step, of which there are two kinds.
    fn meet_part(
        &mut self,
        alloc: Global,
        word: &str,
        layer: &str,
        kinds: [&str; 2],
        name: &str,
    ) -> Result<(), AllocError> {
        for kind in kinds {
            self.meet(alloc, word, format!(in alloc; "{layer}.{kind}.{name}")?)?;
        }
        Ok(())
    }
}

/// The name behind the keyword at a place; no text where none stands there.
fn named(all: &[Token], place: usize) -> &str {
    match name_at(all, place.saturating_add(1)) {
        Some(name) => str::from_utf8(name).unwrap_or(""),
        None => "",
    }
}

/// What has been met of the names of a file, by its tokens.
fn meet_all(alloc: Global, all: &[Token], word: &str) -> Result<Met, AllocError> {
    let mut met = Met {
        count: 0,
        nearest: format!(in alloc; "")?,
        least: usize::MAX,
    };
    let mut layer = 0usize;
    for (place, token) in all.iter().enumerate() {
        let Mark::Keyword(keyword) = &token.mark else {
            continue;
        };
        let name = named(all, place);
        match keyword {
            Keyword::Layer => {
                layer = place;
                met.meet_layer(alloc, word, name)?;
            }
            Keyword::Op => met.meet_part(alloc, word, named(all, layer), ["call", "cut"], name)?,
            Keyword::Tick => met.meet_part(
                alloc,
                word,
                named(all, layer),
                ["tick", "cuttick"],
                name,
            )?,
            _ => {}
        }
    }
    Ok(met)
}

/// What is said of a word that names no obligation of a file: how many there are, and which is the nearest.
pub fn nearest_name(alloc: Global, text: &[u8], word: &str) -> Result<String, AllocError> {
    if word.len() > LONGEST {
        return format!(in alloc; "");
    }
    let Some(tokens) = tokens_in(alloc, text) else {
        return format!(in alloc; "");
    };
    let met = meet_all(alloc, tokens.items.as_slice(), word)?;
    if met.nearest.is_empty() {
        return format!(in alloc; "");
    }
    let Met { count, nearest, .. } = met;
    format!(in alloc; "of its {count} the nearest is \"{nearest}\"; ")
}

/// The name that is declared at a place: a type or a width follows it, or it follows a keyword that declares one; no text where none is.
fn declared_there(all: &[Token], place: usize) -> &str {
    let keyword = match before(place, 1) {
        Some(at) => keyword_at(all, at),
        None => None,
    };
    let is_named = matches!(keyword, Some(Keyword::Let | Keyword::Def | Keyword::Op));
    match name_at(all, place) {
        Some(name) if is_named || is_symbol(all, behind(place, 1), Symbol::Colon) => {
            str::from_utf8(name).unwrap_or("")
        }
        _ => "",
    }
}

/// A name that a file declares and that a word may have been meant to be, at most one slip for three letters and two in all away; no text where there is none.
pub fn nearest_declared(alloc: Global, text: &[u8], word: &str) -> Result<String, AllocError> {
    let mut nearest = format!(in alloc; "")?;
    let mut least = (word.len() / 3).min(2).saturating_add(1);
    let Some(tokens) = tokens_in(alloc, text) else {
        return Ok(nearest);
    };
    let all = tokens.items.as_slice();
    for place in 0..all.len() {
        let name = declared_there(all, place);
        if name.is_empty() || name == word || name.len() > LONGEST || word.len() > LONGEST {
            continue;
        }
        let slips = osa_distance(alloc, word, name)?;
        if slips < least {
            least = slips;
            nearest = format!(in alloc; "{name}")?;
        }
    }
    Ok(nearest)
}
