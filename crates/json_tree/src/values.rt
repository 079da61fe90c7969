ghost use Rattle.std.specs.Prelude.{◌≡◌, is_some, option_map};
ghost use Rattle.serde_json.specs.Find.{get, get_member, as_null, as_bool, as_number, as_str, as_array, as_object};
ghost use Rattle.json_tree.specs.View.{view, members_view};

use crate::numbers::Number;
use crate::texts::Text;

/// A JSON value that borrows its texts.
#[derive(Drop)]
pub enum Value<'a> {
    Null,
    Bool(bool),
    Number(Number),
    String(Text<'a>),
    Array(Vec<Value<'a>>),
    /// The members in the order of the text. Of those with one name the last counts.
    Object(Vec<(&'a str, Value<'a>)>),
}

impl<'a> Value<'a> {
    ghost use Rattle.json_tree.specs.View.{number_view, items_view};

    /// The value of the member of that name. It walks the members from the last one on.
    #[inline]
    pub fn get(&self, name: &str) -> Option<&Value<'a>>
        ensures { option_map (λ v. view v.now) result ≡ get name.now (view self.now) }
    {
        if let Value::Object(members) = self {
            find(members.as_slice(), name)
        } else {
            None
        }
    }

    /// The text of a string.
    #[inline]
    pub fn as_str(&self) -> Option<&str>
        ensures { option_map (λ s. s.now) result ≡ as_str (view self.now) }
    {
        if let Value::String(text) = self {
            Some(text.as_str())
        } else {
            None
        }
    }

    /// Which of `true` and `false` it is.
    #[inline]
    pub fn as_bool(&self) -> Option<bool>
        ensures { result ≡ as_bool (view self.now) }
    {
        if let Value::Bool(b) = self {
            Some(*b)
        } else {
            None
        }
    }

    /// The number.
    #[inline]
    pub fn as_number(&self) -> Option<&Number>
        ensures { option_map (λ n. number_view n.now) result ≡ as_number (view self.now) }
    {
        if let Value::Number(number) = self {
            Some(number)
        } else {
            None
        }
    }

    /// The items of an array.
    #[inline]
    pub fn as_array(&self) -> Option<&[Value<'a>]>
        ensures { option_map (λ list. items_view list.now) result ≡ as_array (view self.now) }
    {
        if let Value::Array(list) = self {
            Some(list.as_slice())
        } else {
            None
        }
    }

    /// Whether it is an array.
    #[inline]
    pub fn is_array(&self) -> bool
        ensures { result ≡ is_some (as_array (view self.now)) }
    {
        matches!(self, Value::Array(_))
    }

    /// Whether it is an object.
    #[inline]
    pub fn is_object(&self) -> bool
        ensures { result ≡ is_some (as_object (view self.now)) }
    {
        matches!(self, Value::Object(_))
    }

    /// Whether it is `null`.
    #[inline]
    pub fn is_null(&self) -> bool
        ensures { result ≡ is_some (as_null (view self.now)) }
    {
        matches!(self, Value::Null)
    }
}

// The value of the last member of that name.
fn find<'v, 'a>(members: &'v [(&'a str, Value<'a>)], name: &str) -> Option<&'v Value<'a>>
    ensures { option_map (λ v. view v.now) result
        ≡ get_member name.now (members_view members.now) }
{
    let mut left = members.len();
    while left > 0 {
        left -= 1;
        let member = &members[left];
        if member.0 == name {
            return Some(&member.1);
        }
    }
    None
}
