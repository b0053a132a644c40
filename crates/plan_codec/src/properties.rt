//! Properties, parameters and expressions: maps and values that nest so deep at most.
use crate::coding::{Readable, Writable};
use crate::sheet::Sheet;
use crate::unread::Unread;
use crate::value_puts::{put_members, put_value};
use crate::values::{fields_at, value_at};
use heat_plan::{Expression, Parameters, Properties};
use heat_value::MAX_DEPTH;
use std::alloc::Global;

impl Readable for Properties {
    ghost use Rattle.plan_codec.specs.Values.{spelled_fields};
    ghost use Rattle.plan_codec.specs.Plans.{IsProperties};
    ghost use Rattle.plan_codec.specs.PlanLaws.{properties_unique};

    ghost spelled = { spelled_fields };

    ghost proper = { IsProperties };

    fn read<'a>(alloc: Global, bytes: &'a [u8]) -> Result<(Properties, &'a [u8]), Unread> {
        let (props, rest) = fields_at(alloc, MAX_DEPTH - 1, bytes)?;
        match Properties::from_props(props) {
            Some(props) => Ok((props, rest)),
            None => unreachable!(),
        }
    }

    ghost unique = { properties_unique };
}

impl Writable for Properties {
    fn put(&self, sheet: &mut Sheet) {
        put_members(self.as_props().as_slice(), sheet);
    }
}

impl Readable for Parameters {
    ghost use Rattle.plan_codec.specs.Values.{spelled_fields};
    ghost use Rattle.plan_codec.specs.Plans.{IsParameters};
    ghost use Rattle.plan_codec.specs.PlanLaws.{parameters_unique};

    ghost spelled = { spelled_fields };

    ghost proper = { IsParameters };

    fn read<'a>(alloc: Global, bytes: &'a [u8]) -> Result<(Parameters, &'a [u8]), Unread> {
        let (props, rest) = fields_at(alloc, MAX_DEPTH, bytes)?;
        match Parameters::from_props(props) {
            Some(params) => Ok((params, rest)),
            None => unreachable!(),
        }
    }

    ghost unique = { parameters_unique };
}

impl Writable for Parameters {
    fn put(&self, sheet: &mut Sheet) {
        put_members(self.as_props().as_slice(), sheet);
    }
}

impl Readable for Expression {
    ghost use Rattle.plan_codec.specs.Values.{spelled_value, IsWithin};
    ghost use Rattle.plan_codec.specs.ValueLaws.{within_unique};

    ghost spelled = { spelled_value };

    ghost proper = { IsWithin 64 };

    fn read<'a>(alloc: Global, bytes: &'a [u8]) -> Result<(Expression, &'a [u8]), Unread> {
        let (value, rest) = value_at(alloc, MAX_DEPTH, bytes)?;
        match Expression::from_value(value) {
            Some(value) => Ok((value, rest)),
            None => unreachable!(),
        }
    }

    ghost unique = { within_unique 64 };
}

impl Writable for Expression {
    fn put(&self, sheet: &mut Sheet) {
        put_value(self.as_value(), sheet);
    }
}
