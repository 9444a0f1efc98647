//! The lesser of two faults, by offset, then by number.
ghost use Rattle.std.specs.Prelude.{◌≡◌};
ghost use Rattle.record_forest.specs.Lesser.{lesser_fault, lesser_of_both};

use rom_fields::Fault;

/// Returns the lesser of `fault` and a noted fault, if there is one.
pub fn lesser_fault(noted: Option<Fault>, fault: Fault) -> Option<Fault>
    ensures { result ≡ lesser_fault noted fault }
{
    match noted {
        None => Some(fault),
        Some(least) => {
            let before = least.at < fault.at;
            let beside = least.at == fault.at && least.number <= fault.number;
            Some(if before || beside { least } else { fault })
        }
    }
}

/// Returns the lesser of two faults, or the only one.
pub fn lesser_of_both(one: Option<Fault>, other: Option<Fault>) -> Option<Fault>
    ensures { result ≡ lesser_of_both one other }
{
    match other {
        None => one,
        Some(fault) => lesser_fault(one, fault),
    }
}
