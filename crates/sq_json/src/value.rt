//! A value of a line, and the items of an array.
ghost use Rattle.std.specs.Prelude.{◌≡◌, ◌<◌, ℕ, List, [], ◌∷◌, Bool, length, is_some, option_map, option_and_then, MatchOption, OnSome, IfNone};
ghost use Rattle.std.specs.List.{list_any};
ghost use Rattle.json.specs.Token.{Token};
ghost use Rattle.serde_json.specs.Data.{no_items, item};
ghost use Rattle.serde_json.specs.Find.{get, at, as_str, as_number, as_array, as_object, as_u64, as_i64};
ghost use Rattle.serde_json.specs.View.{number_view};
ghost use Rattle.sq_json.specs.View.{view, items_view, names_of, names_view, has_any, HasData, HasItems, HasNames};

use crate::number::number_of;
use json::Element;
use serde_json::Number;
use std::marker::Model;

/// A value of a line. A clause sees the tokens from it on, whose `view` is its data.
#[derive(Drop)]
pub struct Value<'t, 'a> {
    element: Element<'t, 'a>,
}

impl<'t, 'a> Model for Value<'t, 'a> {
    ghost Value = { List Token };

    ghost view = { λ a. a.element };

    ghost invariant = { λ a. HasData a.element };
}

impl<'t, 'a> Value<'t, 'a> {
    /// The value that the element begins.
    pub(crate) fn of(element: Element<'t, 'a>) -> Value<'t, 'a>
        requires { HasData element }
        ensures { result ≡ element.entry }
    {
        Value { element }
    }

    /// The member of a name, where this is an object; the last of that name.
    pub fn get(&self, name: &str) -> Option<Value<'t, 'a>>
        ensures { option_map view result ≡ get name.now (view self.now) }
    {
        match self.element.get(name) {
            Some(element) => Some(Value { element }),
            None => None,
        }
    }

    /// The item at an index, where this is an array. It walks the items before it.
    pub fn at(&self, index: usize) -> Option<Value<'t, 'a>>
        ensures { option_map view result ≡ at index (view self.now) }
    {
        match self.element.at(index) {
            Some(element) => Some(Value { element }),
            None => None,
        }
    }

    /// The text, where this is one.
    pub fn as_str(&self) -> Option<&'a str>
        ensures { option_map (λ s. s.now) result ≡ as_str (view self.now) }
    {
        self.element.as_str()
    }

    /// Whether this is a text.
    pub fn is_string(&self) -> bool
        ensures { result ≡ is_some (as_str (view self.now)) }
    {
        self.as_str().is_some()
    }

    // The number, where this is one.
    fn as_number(&self) -> Option<Number>
        ensures { option_map number_view result ≡ as_number (view self.now) }
    {
        match self.element.as_number() {
            Some(text) => number_of(text),
            None => None,
        }
    }

    /// The number, where this is a whole one of 64 bits, from 0 upwards.
    pub fn as_u64(&self) -> Option<u64>
        ensures { result ≡ option_and_then as_u64 (as_number (view self.now)) }
    {
        match self.as_number() {
            Some(number) => number.as_u64(),
            None => None,
        }
    }

    /// Whether this is a whole number of 64 bits with a sign.
    pub fn is_i64(&self) -> bool
        ensures { result ≡ is_some (option_and_then as_i64 (as_number (view self.now))) }
    {
        match self.as_number() {
            Some(number) => number.is_i64(),
            None => false,
        }
    }

    /// Whether this is an object.
    pub fn is_object(&self) -> bool
        ensures { result ≡ is_some (as_object (view self.now)) }
    {
        self.element.members().is_some()
    }

    /// Whether this has members, where it is an object.
    pub fn has_members(&self) -> Option<bool>
        ensures { result ≡ option_map has_any (as_object (view self.now)) }
    {
        match self.element.members() {
            Some(members) => {
                let mut members = members;
                Some(members.next().is_some())
            }
            None => None,
        }
    }

    /// The names of the members, where this is an object; a name that comes twice is there twice.
    pub fn names(&self) -> Option<Names<'t, 'a>>
        ensures { (test : List ℕ → Bool) → option_map (λ names. list_any test (names_view names)) result
            ≡ option_map (λ ms. list_any test (names_of ms)) (as_object (view self.now)) }
    {
        match self.element.members() {
            Some(next) => Some(Names { next }),
            None => None,
        }
    }

    /// Whether this is an array.
    pub fn is_array(&self) -> bool
        ensures { result ≡ is_some (as_array (view self.now)) }
    {
        self.items().is_some()
    }

    /// The items, where this is an array.
    pub fn items(&self) -> Option<Items<'t, 'a>>
        ensures { option_map items_view result ≡ as_array (view self.now) }
    {
        match self.element.items() {
            Some(next) => Some(Items { next }),
            None => None,
        }
    }
}

/// What is left of the items of an array. A clause sees the tokens from the next item on.
#[derive(Drop)]
pub struct Items<'t, 'a> {
    next: json::Items<'t, 'a>,
}

impl<'t, 'a> Model for Items<'t, 'a> {
    ghost Value = { List Token };

    ghost view = { λ a. a.next };

    ghost invariant = { λ a. HasItems a.next };
}

impl<'t, 'a> Items<'t, 'a> {
    /// The next item, if one is left.
    pub fn next(&mut self) -> Option<Value<'t, 'a>>
        ensures value { MatchOption result (items_view self.old ≡ no_items)
            (λ v. items_view self.old ≡ item (view v) (items_view self.new)) }
        ensures shorter { OnSome result (length self.new < length self.old) }
        ensures stays { IfNone result (self.new ≡ self.old) }
    {
        match self.next.next() {
            Some(element) => Some(Value { element }),
            None => None,
        }
    }
}

/// What is left of the names of an object's members. A clause sees the tokens from the next member on.
#[derive(Drop)]
pub struct Names<'t, 'a> {
    next: json::Members<'t, 'a>,
}

impl<'t, 'a> Model for Names<'t, 'a> {
    ghost Value = { List Token };

    ghost view = { λ a. a.next };

    ghost invariant = { λ a. HasNames a.next };
}

impl<'t, 'a> Names<'t, 'a> {
    /// The next name, if one is left.
    pub fn next(&mut self) -> Option<&'a str>
        ensures value { MatchOption result (names_view self.old ≡ [])
            (λ name. names_view self.old ≡ name.now ∷ names_view self.new) }
        ensures shorter { OnSome result (length self.new < length self.old) }
        ensures stays { IfNone result (self.new ≡ self.old) }
    {
        match self.next.next() {
            Some((name, _)) => Some(name),
            None => None,
        }
    }
}
