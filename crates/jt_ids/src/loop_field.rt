//! Defines the fields of a loop, with the id and the name of each.
ghost use Rattle.std.specs.Prelude.{◌≡◌, Some, IfSome, Contains};
ghost use Rattle.jt_ids.specs.LoopTable.{field_id, field_names, field_named, field_of};

/// A field of a running loop. The variants are in the order of their ids, from 0.
#[derive(Clone, Copy, Debug, PartialEq, Eq)]
pub enum LoopField {
    /// The current item. Templates read it by the names that the loop binds.
    Item,
    /// The number of the turn, from 1.
    Index,
    /// The number of the turn, from 0.
    Index0,
    /// The number of turns from this one on.
    RevIndex,
    /// The number of turns after this one.
    RevIndex0,
    /// A truth value that is true at the first turn.
    First,
    /// A truth value that is true at the last turn.
    Last,
    /// The number of all turns.
    Length,
    /// The item of the previous turn.
    Previous,
    /// The item of the next turn.
    Next,
}

impl LoopField {
    /// Returns the id of the field in an image.
    pub fn id(self) -> u8
        ensures { result ≡ field_id self }
    {
        self as u8
    }

    /// Returns the field with this id, or `None` if no field has it.
    #[tactic(auto, unfolding(crate::specs::LoopTable::field_of))]
    pub fn by_id(id: u8) -> Option<LoopField>
        ensures { result ≡ field_of id }
    {
        match id {
            0 => Some(LoopField::Item),
            1 => Some(LoopField::Index),
            2 => Some(LoopField::Index0),
            3 => Some(LoopField::RevIndex),
            4 => Some(LoopField::RevIndex0),
            5 => Some(LoopField::First),
            6 => Some(LoopField::Last),
            7 => Some(LoopField::Length),
            8 => Some(LoopField::Previous),
            9 => Some(LoopField::Next),
            _ => None,
        }
    }

    /// Returns the field that templates read as `loop.` and this name, or `None` if no field has
    /// it.
    #[tactic(auto, using(crate::proofs::LookupByName::loop_field_named))]
    pub fn by_name(name: &str) -> Option<LoopField>
        ensures found { IfSome result (λ field. Contains (field_names field) name.now) }
        ensures only { (field : LoopField) → Contains (field_names field) name.now
            → result ≡ Some field }
        ensures value { result ≡ field_named name.now }
    {
        match name {
            "index" => Some(LoopField::Index),
            "index0" => Some(LoopField::Index0),
            "revindex" => Some(LoopField::RevIndex),
            "revindex0" => Some(LoopField::RevIndex0),
            "first" => Some(LoopField::First),
            "last" => Some(LoopField::Last),
            "length" => Some(LoopField::Length),
            "previtem" => Some(LoopField::Previous),
            "nextitem" => Some(LoopField::Next),
            _ => None,
        }
    }
}
