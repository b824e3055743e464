//! Defines the filters, with the id, the names and the arguments of each.
ghost use Rattle.std.specs.Prelude.{◌≡◌, ◌&&◌, ◌+◌, ◌∷◌, [], Some, IfSome, Contains, nat_le};
ghost use Rattle.std.specs.Prelude.{option_map, position};
ghost use Rattle.std.specs.Str.{bytes_eq};
ghost use Rattle.jt_ids.specs.FilterTable as table;
ghost use Rattle.jt_ids.specs.FilterTable.{filter_id, filter_names, least_values, most_values};
ghost use Rattle.jt_ids.specs.FilterTable.{position_of, filter_of_name, filter_meant, with_only};

/// A filter. The variants are in the order of their ids, from 0.
#[derive(Clone, Copy, Debug, PartialEq, Eq)]
pub enum FilterId {
    Abs,
    Attr,
    Capitalize,
    Default,
    DictSort,
    Escape,
    First,
    ForceEscape,
    Int,
    Items,
    Join,
    Last,
    Length,
    List,
    Lower,
    Map,
    Max,
    Min,
    Reject,
    RejectAttr,
    Replace,
    Reverse,
    Safe,
    Select,
    SelectAttr,
    Sort,
    String,
    Sum,
    Trim,
    Unique,
    Upper,
    /// `map` by an attribute.
    MapAttribute,
}

/// The role of an argument of a filter that names something.
#[derive(Clone, Copy, Debug, PartialEq, Eq)]
pub enum ArgumentRole {
    /// The filter that is called on each item.
    Filter,
    /// The test that is applied to each item.
    Test,
    /// The key of an attribute.
    Key,
}

impl FilterId {
    /// Returns the id of the filter in an image.
    pub fn id(self) -> u8
        ensures { result ≡ filter_id self }
    {
        self as u8
    }

    /// Returns the filter with this id, or `None` if no filter has it.
    pub fn by_id(id: u8) -> Option<FilterId>
        ensures found { IfSome result (λ filter. filter_id filter ≡ id) }
        ensures only { (filter : FilterId) → filter_id filter ≡ id → result ≡ Some filter }
    {
        match id {
            0 => Some(FilterId::Abs),
            1 => Some(FilterId::Attr),
            2 => Some(FilterId::Capitalize),
            3 => Some(FilterId::Default),
            4 => Some(FilterId::DictSort),
            5 => Some(FilterId::Escape),
            6 => Some(FilterId::First),
            7 => Some(FilterId::ForceEscape),
            8 => Some(FilterId::Int),
            9 => Some(FilterId::Items),
            10 => Some(FilterId::Join),
            11 => Some(FilterId::Last),
            12 => Some(FilterId::Length),
            13 => Some(FilterId::List),
            14 => Some(FilterId::Lower),
            15 => Some(FilterId::Map),
            16 => Some(FilterId::Max),
            17 => Some(FilterId::Min),
            18 => Some(FilterId::Reject),
            19 => Some(FilterId::RejectAttr),
            20 => Some(FilterId::Replace),
            21 => Some(FilterId::Reverse),
            22 => Some(FilterId::Safe),
            23 => Some(FilterId::Select),
            24 => Some(FilterId::SelectAttr),
            25 => Some(FilterId::Sort),
            26 => Some(FilterId::String),
            27 => Some(FilterId::Sum),
            28 => Some(FilterId::Trim),
            29 => Some(FilterId::Unique),
            30 => Some(FilterId::Upper),
            31 => Some(FilterId::MapAttribute),
            _ => None,
        }
    }

    /// Returns the filter with this name, or `None` if no filter has it. `MapAttribute` has no name
    /// of its own.
    #[tactic(auto, using(crate::proofs::LookupByName::filter_named, crate::proofs::LookupByName::named_filter))]
    pub fn by_name(name: &str) -> Option<FilterId>
        ensures found { IfSome result (λ filter. Contains (filter_names filter) name.now) }
        ensures only { (filter : FilterId)
            → Contains (filter_names filter) name.now
            → result ≡ Some filter }
        ensures value { result ≡ filter_of_name name.now }
    {
        FilterId::find(name)
    }

    /// Returns the first filter of the table with this name.
    fn find(name: &str) -> Option<FilterId>
        ensures { result ≡ filter_of_name name.now }
    {
        match name {
            "abs" => Some(FilterId::Abs),
            "attr" => Some(FilterId::Attr),
            "capitalize" => Some(FilterId::Capitalize),
            "default" | "d" => Some(FilterId::Default),
            "dictsort" => Some(FilterId::DictSort),
            "escape" | "e" => Some(FilterId::Escape),
            "first" => Some(FilterId::First),
            "forceescape" => Some(FilterId::ForceEscape),
            "int" => Some(FilterId::Int),
            "items" => Some(FilterId::Items),
            "join" => Some(FilterId::Join),
            "last" => Some(FilterId::Last),
            "length" | "count" => Some(FilterId::Length),
            "list" => Some(FilterId::List),
            "lower" => Some(FilterId::Lower),
            "map" => Some(FilterId::Map),
            "max" => Some(FilterId::Max),
            "min" => Some(FilterId::Min),
            "reject" => Some(FilterId::Reject),
            "rejectattr" => Some(FilterId::RejectAttr),
            "replace" => Some(FilterId::Replace),
            "reverse" => Some(FilterId::Reverse),
            "safe" => Some(FilterId::Safe),
            "select" => Some(FilterId::Select),
            "selectattr" => Some(FilterId::SelectAttr),
            "sort" => Some(FilterId::Sort),
            "string" => Some(FilterId::String),
            "sum" => Some(FilterId::Sum),
            "trim" => Some(FilterId::Trim),
            "unique" => Some(FilterId::Unique),
            "upper" => Some(FilterId::Upper),
            _ => None,
        }
    }

    /// Returns the filter that a name means. `only` is the name of the only argument, if there is
    /// exactly one and it is passed by name: `map(attribute=key)` is another filter than `map`.
    pub fn named(name: &str, only: Option<&str>) -> Option<FilterId>
        ensures { result ≡ filter_meant name.now (option_map (λ s. s.now) only.entry) }
    {
        match FilterId::by_name(name) {
            Some(filter) => Some(filter.with_only(only)),
            None => None,
        }
    }

    /// Returns the filter that `self` means. `only` is the name of the only argument, if there is
    /// exactly one and it is passed by name.
    fn with_only(self, only: Option<&str>) -> FilterId
        ensures { Some result ≡ with_only (Some self) (option_map (λ s. s.now) only.entry) }
    {
        match (self, only) {
            (FilterId::Map, Some("attribute")) => FilterId::MapAttribute,
            _ => self,
        }
    }

    /// Returns whether the filter takes `values` values, its input included.
    pub fn takes(self, values: usize) -> bool
        ensures { result ≡ (nat_le (least_values self) values && nat_le values (most_values self)) }
    {
        let (least, most) = match self {
            FilterId::Default => (1, 3),
            FilterId::Int | FilterId::Join | FilterId::Sort => (1, 2),
            FilterId::Replace => (3, 3),
            FilterId::Attr | FilterId::MapAttribute => (2, 2),
            FilterId::Select | FilterId::Reject => (1, 255),
            FilterId::Map | FilterId::SelectAttr | FilterId::RejectAttr => (2, 255),
            _ => (1, 1),
        };
        least <= values && values <= most
    }

    /// Returns the position among the values of an argument that is passed by name, or `None` if
    /// the filter has no such argument. The input has position 0.
    pub fn place(self, argument: &str) -> Option<usize>
        ensures { result ≡ position_of self argument.now }
    {
        match self {
            FilterId::Attr => position_of_one("name", argument),
            FilterId::Default => position_of_two("default_value", "boolean", argument),
            FilterId::Int => position_of_one("default", argument),
            FilterId::Join => position_of_one("d", argument),
            FilterId::Replace => position_of_two("old", "new", argument),
            FilterId::Sort => position_of_one("reverse", argument),
            FilterId::MapAttribute => position_of_one("attribute", argument),
            _ => None,
        }
    }

    /// Returns the role of the value at this position; the input has position 0. Such a value names
    /// an attribute's key, or the filter or test that is called on each item with the values after
    /// it. In a template it is a text literal.
    pub fn named_at(self, position: usize) -> Option<ArgumentRole>
        ensures { result ≡ table.named_at self position }
    {
        match (self, position) {
            (FilterId::Map, 1) => Some(ArgumentRole::Filter),
            (FilterId::Select, 1) => Some(ArgumentRole::Test),
            (FilterId::Reject, 1) => Some(ArgumentRole::Test),
            (FilterId::SelectAttr, 1) => Some(ArgumentRole::Key),
            (FilterId::SelectAttr, 2) => Some(ArgumentRole::Test),
            (FilterId::RejectAttr, 1) => Some(ArgumentRole::Key),
            (FilterId::RejectAttr, 2) => Some(ArgumentRole::Test),
            (FilterId::MapAttribute, 1) => Some(ArgumentRole::Key),
            _ => None,
        }
    }

    /// Returns whether `map` may call the filter. It may not call one that names a filter, a test
    /// or an attribute.
    pub fn may_be_inner(self) -> bool
        ensures { result ≡ table.may_be_inner self }
    {
        match self {
            FilterId::Map
            | FilterId::MapAttribute
            | FilterId::Reject
            | FilterId::RejectAttr
            | FilterId::Select
            | FilterId::SelectAttr => false,
            _ => true,
        }
    }
}

/// Returns the position of an argument of a filter with one named argument.
fn position_of_one(first: &str, argument: &str) -> Option<usize>
    ensures { result
        ≡ option_map (λ i. i + 1)
        (position (λ other. bytes_eq other argument.now) (first.now ∷ [])) }
{
    if first == argument { Some(1) } else { None }
}

/// Returns the position of an argument of a filter with two named arguments.
fn position_of_two(first: &str, second: &str, argument: &str) -> Option<usize>
    ensures { result
        ≡ option_map (λ i. i + 1)
        (position (λ other. bytes_eq other argument.now) (first.now ∷ second.now ∷ [])) }
{
    if first == argument {
        Some(1)
    } else if second == argument {
        Some(2)
    } else {
        None
    }
}
