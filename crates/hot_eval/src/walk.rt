//! The walk of a repeat from choice to choice, the last key's items going fastest. What is the same in
//! the next choice is left as it is.
ghost use Rattle.std.specs.Prelude.{◌≡◌, ◌<◌, ◌≤◌, ◌+◌, ⊤, IfOk, MatchBool, MatchOption, length, option_map, set};
ghost use Rattle.std.specs.Prelude.{nat_le, if◌then◌else◌};
ghost use Rattle.hot_eval.specs.Repeats.{lists_of, AreKeys, ArePlaces, AreFirst, GoesOn};
ghost use Rattle.hot_eval.specs.Repeats.{AreLinks, stocks_for, IsChoiceAt, count_of, list_at};

use crate::choices::{Choice, Listed, item_at};
use crate::stock::Stock;
use heat_value::Value;
use std::alloc::{AllocError, Global};

/// The places of the first choice; none where a list is empty, since then there is no choice.
pub fn first_places(alloc: Global, lists: &[Listed]) -> Result<Option<Vec<usize>>, AllocError>
    ensures { IfOk result (λ o. AreFirst (lists_of lists.now) (option_map (λ ps. ps.items) o)) }
{
    let mut places = Vec::new(alloc);
    for list in lists {
        if list.items.is_empty() {
            return Ok(None);
        }
        places.push(0)?;
    }
    Ok(Some(places))
}

/// The texts of each list's items.
pub fn stocks_of(alloc: Global, lists: &[Listed]) -> Result<Vec<Stock>, AllocError>
    ensures { IfOk result (λ v. v.items ≡ stocks_for (lists_of lists.now)) }
{
    let mut stocks = Vec::new(alloc);
    for list in lists {
        stocks.push(Stock::of(alloc, list.items)?)?;
    }
    Ok(stocks)
}

/// For each number of lists the place behind the last of these that has more than one item, or 0. So the
/// walk from choice to choice meets no list of one item.
pub fn links_of(alloc: Global, lists: &[Listed]) -> Result<Vec<usize>, AllocError>
    ensures { IfOk result (λ v. AreLinks (lists_of lists.now) v.items) }
{
    let mut links = Vec::new(alloc);
    links.push(0)?;
    for at in 0..lists.len() {
        let link = link_behind(at + 1, lists[at].items, links[at]);
        links.push(link)?;
    }
    Ok(links)
}

// The place behind a list with more than one item; else the link in front of it.
fn link_behind(behind: usize, items: &[Value], link: usize) -> usize
    ensures { result ≡ (if nat_le 2 (length items.now) then behind else link) }
{
    if items.len() > 1 { behind } else { link }
}

/// Goes on to the next choice, in which each list that changes has its new item; false where there is none.
pub fn go_on<'a>(
    lists: &[Listed<'a>],
    links: &[usize],
    places: &mut Vec<usize>,
    stocks: &mut Vec<Stock>,
    choice: &mut Choice<'a>,
) -> bool
    requires keys { AreKeys (lists_of lists.now) }
    requires links { AreLinks (lists_of lists.now) links.now }
    requires places { ArePlaces (lists_of lists.now) places.old.items }
    requires choice { IsChoiceAt (lists_of lists.now) places.old.items stocks.old.items choice.old }
    ensures goes { GoesOn result (lists_of lists.now) places.old.items places.new.items }
    ensures choice { MatchBool result
        (IsChoiceAt (lists_of lists.now) places.new.items stocks.new.items choice.new) ⊤ }
{
    let mut at = links[lists.len()];
    while at > 0 {
        match next_place(lists[at - 1].items, places[at - 1]) {
            Some(next) => {
                turn(lists, at - 1, next, places, stocks, choice);
                return true;
            }
            None => turn(lists, at - 1, 0, places, stocks, choice),
        }
        at = links[at - 1];
    }
    false
}

// Turns one list to the item at a place.
fn turn<'a>(
    lists: &[Listed<'a>],
    at: usize,
    place: usize,
    places: &mut Vec<usize>,
    stocks: &mut Vec<Stock>,
    choice: &mut Choice<'a>,
)
    requires keys { AreKeys (lists_of lists.now) }
    requires within { at < length lists.now }
    requires place { place < count_of (list_at (lists_of lists.now) at) }
    requires places { ArePlaces (lists_of lists.now) places.old.items }
    requires choice { IsChoiceAt (lists_of lists.now) places.old.items stocks.old.items choice.old }
    ensures places { places.new.items ≡ set places.old.items at place }
    ensures choice { IsChoiceAt (lists_of lists.now) places.new.items stocks.new.items choice.new }
{
    stocks[at].lend(&mut choice.texts[at].1, places[at], place);
    choice.items[at] = item_at(lists[at].items, place);
    places[at] = place;
}

// The place behind this one; none behind the last.
fn next_place(items: &[Value], place: usize) -> Option<usize>
    requires { place < length items.now }
    ensures { MatchOption result (length items.now ≤ place + 1)
        (λ next. (next ≡ place + 1) × (next < length items.now)) }
{
    let left = items.len() - place;
    if left > 1 { Some(place + 1) } else { None }
}
