//! Defines the operators, with the id and the number of operands of each.
ghost use Rattle.std.specs.Prelude.{◌≡◌, ◌==◌, Some, IfSome};
ghost use Rattle.jt_ids.specs.OpTable.{op_id, op_operands};

/// An operator. The variants are in the order of their ids, from 0.
#[derive(Clone, Copy, Debug, PartialEq, Eq)]
pub enum OpId {
    Add,
    Subtract,
    Multiply,
    FloorDivide,
    Remainder,
    Power,
    Negate,
    Plus,
    Not,
    Join,
    JoinEscaping,
    Equal,
    NotEqual,
    Less,
    LessOrEqual,
    Greater,
    GreaterOrEqual,
    In,
    Item,
    RangeToStop,
    RangeFromStart,
    RangeByStep,
}

impl OpId {
    /// Returns the id of the operator in an image.
    pub fn id(self) -> u8
        ensures { result ≡ op_id self }
    {
        self as u8
    }

    /// Returns the operator with this id, or `None` if no operator has it.
    pub fn by_id(id: u8) -> Option<OpId>
        ensures found { IfSome result (λ op. op_id op ≡ id) }
        ensures only { (op : OpId) → op_id op ≡ id → result ≡ Some op }
    {
        match id {
            0 => Some(OpId::Add),
            1 => Some(OpId::Subtract),
            2 => Some(OpId::Multiply),
            3 => Some(OpId::FloorDivide),
            4 => Some(OpId::Remainder),
            5 => Some(OpId::Power),
            6 => Some(OpId::Negate),
            7 => Some(OpId::Plus),
            8 => Some(OpId::Not),
            9 => Some(OpId::Join),
            10 => Some(OpId::JoinEscaping),
            11 => Some(OpId::Equal),
            12 => Some(OpId::NotEqual),
            13 => Some(OpId::Less),
            14 => Some(OpId::LessOrEqual),
            15 => Some(OpId::Greater),
            16 => Some(OpId::GreaterOrEqual),
            17 => Some(OpId::In),
            18 => Some(OpId::Item),
            19 => Some(OpId::RangeToStop),
            20 => Some(OpId::RangeFromStart),
            21 => Some(OpId::RangeByStep),
            _ => None,
        }
    }

    /// Returns the number of operands of the operator: 1, 2 or 3.
    pub fn operands(self) -> usize
        ensures { result ≡ op_operands self }
    {
        match self {
            OpId::Negate | OpId::Plus | OpId::Not | OpId::RangeToStop => 1,
            OpId::RangeByStep => 3,
            _ => 2,
        }
    }

    /// Returns whether the operator takes `values` operands.
    pub fn takes(self, values: usize) -> bool
        ensures { result ≡ (values == op_operands self) }
    {
        values == self.operands()
    }
}
