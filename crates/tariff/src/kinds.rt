//! Classes of customers, whether a customer takes part in the weather adjustment, and sales of gas.
ghost use Rattle.std.specs.Prelude.{◌≡◌};
ghost use Rattle.tariff.specs.Classes.{class_number, class_of, status_number, status_of};

/// The class of a customer, and the number that calls bring for it.
#[derive(Clone, Copy, Debug, PartialEq, Eq)]
pub enum Class {
    Residential = 0,
    Commercial = 1,
}

/// Whether a customer's winter bills are adjusted, and the number that calls bring for it.
#[derive(Clone, Copy, Debug, PartialEq, Eq)]
pub enum Status {
    Out = 0,
    In = 1,
}

/// A sale of gas, for which a bill may rise and fall so far: its class, its therms, the billing
/// rate, and the floor below which the rate does not fall, in points per therm.
#[derive(Clone, Copy, Debug, PartialEq, Eq)]
pub struct Sale {
    pub class: Class,
    pub therms: u32,
    pub billing_rate: u32,
    pub floor: u32,
}

/// A number that is no class, or no status: each of the two has numbers of its own.
#[derive(Clone, Copy, Debug, PartialEq, Eq)]
pub struct UnknownCode(pub u64);

impl TryFrom<u64> for Class {
    type Error = UnknownCode;

    ghost try_from_gives = { λ n r. r ≡ class_of n };

    fn try_from(number: u64) -> Result<Self, UnknownCode> {
        match number {
            0 => Ok(Class::Residential),
            1 => Ok(Class::Commercial),
            _ => Err(UnknownCode(number)),
        }
    }
}

impl From<Class> for u8 {
    ghost from_gives = { λ class n. n ≡ class_number class };

    fn from(class: Class) -> u8 {
        class as u8
    }
}

impl TryFrom<u64> for Status {
    type Error = UnknownCode;

    ghost try_from_gives = { λ n r. r ≡ status_of n };

    fn try_from(number: u64) -> Result<Self, UnknownCode> {
        match number {
            0 => Ok(Status::Out),
            1 => Ok(Status::In),
            _ => Err(UnknownCode(number)),
        }
    }
}

impl From<Status> for u8 {
    ghost from_gives = { λ status n. n ≡ status_number status };

    fn from(status: Status) -> u8 {
        status as u8
    }
}
