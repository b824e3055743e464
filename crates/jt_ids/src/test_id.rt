//! Defines the tests, with the id and the names of each.
ghost use Rattle.std.specs.Prelude.{◌≡◌, ◌==◌, Some, IfSome, Contains};
ghost use Rattle.jt_ids.specs.TestTable.{test_id, test_values, test_names, test_of_name};

/// A test. The variants are in the order of their ids, from 0.
#[derive(Clone, Copy, Debug, PartialEq, Eq)]
pub enum TestId {
    Boolean,
    Defined,
    DivisibleBy,
    Equal,
    NotEqual,
    Escaped,
    Even,
    Odd,
    False,
    True,
    GreaterOrEqual,
    Greater,
    LessOrEqual,
    Less,
    In,
    Integer,
    Mapping,
    None,
    String,
    Undefined,
}

impl TestId {
    /// Returns the id of the test in an image.
    pub fn id(self) -> u8
        ensures { result ≡ test_id self }
    {
        self as u8
    }

    /// Returns the test with this id, or `None` if no test has it.
    pub fn by_id(id: u8) -> Option<TestId>
        ensures found { IfSome result (λ test. test_id test ≡ id) }
        ensures only { (test : TestId) → test_id test ≡ id → result ≡ Some test }
    {
        match id {
            0 => Some(TestId::Boolean),
            1 => Some(TestId::Defined),
            2 => Some(TestId::DivisibleBy),
            3 => Some(TestId::Equal),
            4 => Some(TestId::NotEqual),
            5 => Some(TestId::Escaped),
            6 => Some(TestId::Even),
            7 => Some(TestId::Odd),
            8 => Some(TestId::False),
            9 => Some(TestId::True),
            10 => Some(TestId::GreaterOrEqual),
            11 => Some(TestId::Greater),
            12 => Some(TestId::LessOrEqual),
            13 => Some(TestId::Less),
            14 => Some(TestId::In),
            15 => Some(TestId::Integer),
            16 => Some(TestId::Mapping),
            17 => Some(TestId::None),
            18 => Some(TestId::String),
            19 => Some(TestId::Undefined),
            _ => None,
        }
    }

    /// Returns the test with this name, or `None` if no test has it.
    #[tactic(auto, using(crate::proofs::LookupByName::test_named, crate::proofs::LookupByName::named_test))]
    pub fn by_name(name: &str) -> Option<TestId>
        ensures found { IfSome result (λ test. Contains (test_names test) name.now) }
        ensures only { (test : TestId) → Contains (test_names test) name.now → result ≡ Some test }
        ensures value { result ≡ test_of_name name.now }
    {
        TestId::find(name)
    }

    /// Returns the first test of the table with this name.
    fn find(name: &str) -> Option<TestId>
        ensures { result ≡ test_of_name name.now }
    {
        match name {
            "boolean" => Some(TestId::Boolean),
            "defined" => Some(TestId::Defined),
            "divisibleby" => Some(TestId::DivisibleBy),
            "eq" | "equalto" => Some(TestId::Equal),
            "ne" => Some(TestId::NotEqual),
            "escaped" => Some(TestId::Escaped),
            "even" => Some(TestId::Even),
            "odd" => Some(TestId::Odd),
            "false" => Some(TestId::False),
            "true" => Some(TestId::True),
            "ge" => Some(TestId::GreaterOrEqual),
            "gt" | "greaterthan" => Some(TestId::Greater),
            "le" => Some(TestId::LessOrEqual),
            "lt" | "lessthan" => Some(TestId::Less),
            "in" => Some(TestId::In),
            "integer" => Some(TestId::Integer),
            "mapping" => Some(TestId::Mapping),
            "none" => Some(TestId::None),
            "string" => Some(TestId::String),
            "undefined" => Some(TestId::Undefined),
            _ => None,
        }
    }

    /// Returns whether the test takes `values` values, the tested one included.
    pub fn takes(self, values: usize) -> bool
        ensures { result ≡ (values == test_values self) }
    {
        let wanted = match self {
            TestId::DivisibleBy
            | TestId::Equal
            | TestId::NotEqual
            | TestId::GreaterOrEqual
            | TestId::Greater
            | TestId::LessOrEqual
            | TestId::Less
            | TestId::In => 2,
            _ => 1,
        };
        values == wanted
    }
}
