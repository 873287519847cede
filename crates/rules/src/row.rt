// The rows of a rule book.
ghost use Rattle.std.specs.Prelude.{◌≡◌, ◌↔◌, ◌≤◌, IsTrue};
ghost use Rattle.rules.specs.Book.{IfThere};
ghost use Rattle.rules.specs.Types.{NamesType, is_short};
ghost use Rattle.rules.specs.Value.{type_index};

// The six types of values, in the order of their numbers.
#[derive(Clone, Copy, PartialEq, Eq, Debug)]
pub enum ValueType {
    Null,
    Boolean,
    Number,
    Text,
    List,
    Object,
}

// A number that no type has.
#[derive(Clone, Copy, PartialEq, Eq, Debug)]
pub struct UnknownType(pub u16);

// The number of a type.
impl From<ValueType> for u16 {
    ghost from_gives = { λ t n. n ≡ type_index t };

    fn from(of: ValueType) -> u16 {
        match of {
            ValueType::Null => 0,
            ValueType::Boolean => 1,
            ValueType::Number => 2,
            ValueType::Text => 3,
            ValueType::List => 4,
            ValueType::Object => 5,
        }
    }
}

// The type of a number.
impl TryFrom<u16> for ValueType {
    type Error = UnknownType;

    ghost try_from_gives = { NamesType };

    fn try_from(number: u16) -> Result<ValueType, UnknownType> {
        match number {
            0 => Ok(ValueType::Null),
            1 => Ok(ValueType::Boolean),
            2 => Ok(ValueType::Number),
            3 => Ok(ValueType::Text),
            4 => Ok(ValueType::List),
            5 => Ok(ValueType::Object),
            _ => Err(UnknownType(number)),
        }
    }
}

// A range of counts, both ends in it. Without an upper end it goes on for ever.
#[derive(Clone, Copy, PartialEq, Eq, Debug)]
pub struct Range {
    pub lower: u16,
    pub upper: Option<u16>,
}

impl Range {
    // Whether one more than the upper end is still an end, so that the range's complement can be written.
    pub fn is_ended(self) -> bool
        ensures is { result ≡ is_short self.upper }
        ensures means { IsTrue result ↔ IfThere self.upper (λ u. u ≤ 65534) }
    {
        self.upper != Some(u16::MAX)
    }
}

// Two of the book's numbers, by index. An absent one limits nothing.
#[derive(Clone, Copy, PartialEq, Eq, Debug)]
pub struct Bounds {
    pub lower: Option<u16>,
    pub upper: Option<u16>,
}

// What a row asks of a value. Patterns, numbers, rows and definitions are named by index, a row's pattern before its row.
#[derive(Clone, Copy, PartialEq, Eq, Debug)]
pub enum Row {
    True,
    False,
    OfType(ValueType),
    BooleanIs(bool),
    Pattern(u16),
    NotPattern(u16),
    Length(Range),
    Between(Bounds),
    StrictlyBetween(Bounds),
    Multiple(u16),
    NotMultiple(u16),
    EveryMember(u16, u16),
    SomeMember(u16, u16),
    Members(Range),
    EveryElement(u16),
    SomeElement(u16),
    Count(u16, Range),
    And(u16, u16),
    Or(u16, u16),
    Not(u16),
    Variable(u16),
}
