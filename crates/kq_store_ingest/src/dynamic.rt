// The dynamics of a body, whose keys and short strings are shared.
ghost use Rattle.std.specs.Prelude.{◌≡◌, ◌≤◌, ◌<◌, ◌==◌, true, false, length, slice_index, take, drop, Some, IfOk, IfSome, IsTrue, OnOk, option_map, option_and_then};
ghost use Rattle.json.specs.Json.{value, items, members};
ghost use Rattle.serde_json.specs.Data.{no_members};
ghost use Rattle.serde_json.specs.Find.{as_i64};
ghost use Rattle.serde_json.specs.Read.{converted, number_of, number_from};
ghost use Rattle.kq_value.specs.Tree.{tree_depth, trees_depth, entries_depth};
ghost use Rattle.kq_value.specs.Seen.{tree_of, entries_of};
ghost use Rattle.kq_value.specs.Bags.{KeysAscend, IsAfter, IsBefore};
ghost use Rattle.kq_value_formats.specs.Json.{json_of};
ghost use Rattle.kq_store_ingest.specs.Tokens.{tree_in, trees_in, entries_in, put_entry};

use crate::shared::{Kept, Texts};
use fast_float::Numeral;
use json::{Invalid, Reader, Token};
use kq_value::{Dyn, DynBag, DynList, Member, Memory, Text};
use kq_value_json::read_dyn;
use std::alloc::{AllocError, AllocFailed, Global};
use std::cmp::Ordering;

// How deep arrays and bags may nest.
const MAX_DEPTH: usize = 127;

// How many entries of a bag a key may be put before. A bag that wants more is left to `read_dyn`, which takes no longer for it.
const FEW: usize = 32;

// Why a dynamic isn't read token by token.
#[derive(Clone, Copy, Drop)]
enum Unread {
    Memory,
    // The text is no dynamic, or it is one for `read_dyn`.
    Other,
}

impl From<AllocError> for Unread {
    ghost use Rattle.std.specs.Prelude.{◌≡◌};
    ghost use Rattle.kq_store_ingest.specs.declared.dynamic.Unread.TheVariants as unread;

    ghost from_gives = { λ _ e. e ≡ unread.Memory };

    fn from(_error: AllocError) -> Unread {
        Unread::Memory
    }
}

impl<T: Drop> From<AllocFailed<T>> for Unread {
    ghost use Rattle.std.specs.Prelude.{◌≡◌};
    ghost use Rattle.kq_store_ingest.specs.declared.dynamic.Unread.TheVariants as unread;

    ghost from_gives = { λ _ e. e ≡ unread.Memory };

    fn from(_error: AllocFailed<T>) -> Unread {
        Unread::Memory
    }
}

impl From<Invalid> for Unread {
    ghost use Rattle.std.specs.Prelude.{◌≡◌};
    ghost use Rattle.kq_store_ingest.specs.declared.dynamic.Unread.TheVariants as unread;

    ghost from_gives = { λ _ e. e ≡ unread.Other };

    fn from(_invalid: Invalid) -> Unread {
        Unread::Other
    }
}

// The dynamic that a text is as JSON, or none, as `kq_value_json` reads it.
pub(crate) fn read_shared(alloc: Global, kept: &mut Kept, text: &str) -> Result<Option<Dyn>, Memory>
    ensures { IfOk result (λ o. option_map tree_of o ≡ json_of text.now) }
{
    match read_tokens(alloc, kept, text) {
        Ok(dynamic) => Ok(Some(dynamic)),
        Err(Unread::Memory) => Err(AllocError),
        Err(Unread::Other) => read_dyn(alloc, text),
    }
}

fn read_tokens(alloc: Global, kept: &mut Kept, text: &str) -> Result<Dyn, Unread>
    ensures { IfOk result (λ d. json_of text.now ≡ Some (tree_of d)) }
{
    let room = kept.entries.min(FEW);
    let mut reader = Reader::new(text, &mut kept.scratch)?;
    let dynamic = read_value(alloc, &mut kept.texts, &mut reader, room, MAX_DEPTH)?;
    if reader.next().is_some() {
        return Err(Unread::Other);
    }
    if let Dyn::Bag(bag) = &dynamic {
        kept.entries = bag.len();
    }
    Ok(dynamic)
}

// The next value of the reader. Each bag gets room for so many entries at first.
#[cycle(read)]
fn read_value(
    alloc: Global,
    texts: &mut Texts,
    reader: &mut Reader<'_>,
    room: usize,
    depth: usize,
) -> Result<Dyn, Unread>
    requires { depth ≤ 127 }
    ensures read { IfOk result (λ d. converted tree_in (value depth reader.old) ≡ Some (tree_of d, reader.new)) }
    ensures shorter { OnOk result (length reader.new < length reader.old) }
    ensures shallow { IfOk result (λ d. tree_depth (tree_of d) ≤ depth) }
{
    let token = reader.next().ok_or(Unread::Other)?;
    match token {
        Token::Null => Ok(Dyn::Null),
        Token::Bool(b) => Ok(Dyn::Bool(b)),
        Token::Number(text) => match long_of(text) {
            Some(n) => Ok(Dyn::Long(n)),
            None => Err(Unread::Other),
        },
        Token::String(text) => Ok(Dyn::Text(texts.text(alloc, text)?)),
        Token::BeginArray if depth > 0 => {
            Ok(Dyn::List(read_items(alloc, texts, reader, room, depth - 1)?))
        }
        Token::BeginObject if depth > 0 => {
            Ok(Dyn::Bag(read_members(alloc, texts, reader, room, depth - 1)?))
        }
        _ => Err(Unread::Other),
    }
}

#[cycle(read)]
fn read_items(
    alloc: Global,
    texts: &mut Texts,
    reader: &mut Reader<'_>,
    room: usize,
    depth: usize,
) -> Result<DynList, Unread>
    requires { depth < 127 }
    ensures read { IfOk result (λ list. converted trees_in (items (value depth) (length reader.old) reader.old) ≡ Some (list, reader.new)) }
    ensures shorter { OnOk result (length reader.new < length reader.old) }
    ensures shallow { IfOk result (λ list. trees_depth list ≤ depth) }
{
    let mut list = Vec::new(alloc);
    'items: while !reader.take_end_array() {
        let item = read_value(alloc, texts, reader, room, depth)?;
        list.push(item)?;
    }
    list.shrink_to_fit();
    Ok(DynList::from_vec(list))
}

#[cycle(read)]
fn read_members(
    alloc: Global,
    texts: &mut Texts,
    reader: &mut Reader<'_>,
    room: usize,
    depth: usize,
) -> Result<DynBag, Unread>
    requires { depth < 127 }
    ensures read { IfOk result (λ bag. converted (entries_in no_members) (members (value depth) (length reader.old) reader.old) ≡ Some (bag, reader.new)) }
    ensures shorter { OnOk result (length reader.new < length reader.old) }
    ensures shallow { IfOk result (λ bag. entries_depth bag ≤ depth) }
{
    let mut bag = Vec::with_capacity(alloc, room)?;
    'members: while let Some(name) = reader.next_key()? {
        let key = texts.text(alloc, name)?;
        let value = read_value(alloc, texts, reader, room, depth)?;
        put(&mut bag, Member { key, value })?;
    }
    bag.shrink_to_fit();
    Ok(DynBag::from_vec(bag))
}

// Puts an entry among those of a bag, in the order of their keys.
fn put(bag: &mut Vec<Member>, member: Member) -> Result<(), Unread>
    requires { KeysAscend (entries_of bag.old.items) }
    ensures { OnOk result (entries_of bag.new.items ≡ put_entry member.key (tree_of member.value) (entries_of bag.old.items)) }
{
    let Some(place) = place_of(bag, &member.key) else {
        return Err(Unread::Other);
    };
    bag.insert(place, member)?;
    Ok(())
}

// The place of a new key among those of a bag, which few stand after.
fn place_of(bag: &Vec<Member>, key: &Text) -> Option<usize>
    ensures { IfSome result (λ place. (place ≤ length bag.now.items) × IsAfter key.now (entries_of (take place bag.now.items)) × IsBefore key.now (entries_of (drop place bag.now.items))) }
{
    let mut place = bag.len();
    while place > 0 {
        match bag[place - 1].key.cmp(key) {
            Ordering::Less => return Some(place),
            Ordering::Equal => return None,
            Ordering::Greater => place -= 1,
        }
        if bag.len() - place > FEW {
            return None;
        }
    }
    Some(0)
}

// The number that a token writes, where it is whole, of 64 signed bits and not `-0`.
fn long_of(text: &str) -> Option<i64>
    ensures { IfSome result (λ n. option_and_then as_i64 (number_of text.now) ≡ Some n) }
{
    let bytes = text.as_bytes();
    if has_minus(bytes) {
        long_below(&Numeral::scan(&bytes[1..]))
    } else {
        long_above(&Numeral::scan(bytes))
    }
}

fn has_minus(bytes: &[u8]) -> bool
    ensures value { result ≡ (slice_index bytes.now 0 == 45) }
    ensures some { IsTrue result → 0 < length bytes.now }
{
    !bytes.is_empty() && bytes[0] == b'-'
}

fn long_above(numeral: &Numeral<'_>) -> Option<i64>
    ensures { IfSome result (λ n. option_and_then as_i64 (number_from false numeral.now) ≡ Some n) }
{
    numeral.to_i64(false)
}

fn long_below(numeral: &Numeral<'_>) -> Option<i64>
    ensures { IfSome result (λ n. option_and_then as_i64 (number_from true numeral.now) ≡ Some n) }
{
    let n = numeral.to_i64(true)?;
    if n < 0 { Some(n) } else { None }
}
