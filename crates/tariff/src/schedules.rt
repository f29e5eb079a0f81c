//! The two schedules.
ghost use Rattle.tariff.specs.Schedules.{fall195, fall240, rise195, rise240, terms195, terms240};
ghost use Rattle.tariff.specs.declared.kinds.Class.TheVariants.{Residential, Commercial};
ghost use Rattle.std.proofs.Common.{rules, mul-le-mul_left, arith};

use crate::Sheet;
use crate::kinds::{Class, Sale};
use crate::terms::Terms;

/// The most that a residential bill may rise: $12.00.
const RESIDENTIAL_CAP: u64 = 1_200_000;

/// The most that a commercial bill may rise: $35.00.
const COMMERCIAL_CAP: u64 = 3_500_000;

/// Schedule 195: rise and fall are limited alike.
#[derive(Clone, Copy, Debug, PartialEq, Eq)]
pub struct Schedule195;

impl Sheet for Schedule195 {
    const RESIDENTIAL: Terms = Terms {
        set_point: 590,
        coefficient: 15_533,
    };

    const COMMERCIAL: Terms = Terms {
        set_point: 580,
        coefficient: 65_004,
    };

    ghost RESIDENTIAL = { terms195 Residential };

    ghost COMMERCIAL = { terms195 Commercial };

    ghost rise = { λ _. rise195 };

    ghost fall = { λ _. fall195 };

    ghost rise_within = { Prim.search rules };

    ghost fall_within = { Prim.search rules };

    fn most_up(&self, sale: Sale) -> u64 {
        let cap = match sale.class {
            Class::Residential => RESIDENTIAL_CAP,
            Class::Commercial => COMMERCIAL_CAP,
        };
        (sale.therms as u64 * sale.billing_rate as u64 / 4).min(cap)
    }

    fn most_down(&self, sale: Sale) -> u64 {
        self.most_up(sale)
    }
}

/// Schedule 240: a bill rises as under Schedule 195, and falls no further than the floor.
#[derive(Clone, Copy, Debug, PartialEq, Eq)]
pub struct Schedule240;

impl Sheet for Schedule240 {
    const RESIDENTIAL: Terms = Terms {
        set_point: 650,
        coefficient: 19_030,
    };

    const COMMERCIAL: Terms = Terms {
        set_point: 650,
        coefficient: 76_160,
    };

    ghost RESIDENTIAL = { terms240 Residential };

    ghost COMMERCIAL = { terms240 Commercial };

    ghost rise = { λ _. rise240 };

    ghost fall = { λ _. fall240 };

    ghost rise_within = { Prim.search rules };

    ghost fall_within = { λ s sale. mul-le-mul_left sale.therms (omega arith) };

    fn most_up(&self, sale: Sale) -> u64 {
        Schedule195.most_up(sale)
    }

    fn most_down(&self, sale: Sale) -> u64 {
        sale.therms as u64 * sale.billing_rate.saturating_sub(sale.floor) as u64
    }
}
