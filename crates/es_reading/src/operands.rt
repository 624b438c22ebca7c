//! So many operands: each is of its JSON kind before the first of them is read.

ghost use Rattle.std.specs.Prelude.{◌≡◌, ◌∷◌, [], map};
ghost use Rattle.serde_json.specs.View.{items_of};
ghost use Rattle.es_reading.specs.Forms.{fits};
ghost use Rattle.es_reading.specs.Reading.{Gives, said, nameless, operand_read, operands_read};

use crate::ReadFault;
use crate::fault::{FaultCode, Spot};
use crate::known_names::KnownNames;
use crate::operand::Operand;
use crate::part::Seen;
use crate::scope::Scope;

fn fits<A: Operand, V: Seen>(value: &V) -> bool
    ensures { result ≡ fits A.kind (V.shown value.now) }
{
    A::fits(value.part())
}

fn read<A: Operand, V: Seen>(
    names: &mut KnownNames,
    scope: &Scope,
    value: &V,
    spot: Spot,
) -> Result<A, ReadFault>
    ensures { Gives A.meaning result (operand_read (said scope.now) spot A.kind (V.shown value.now)) }
{
    A::read(names, scope, value.part(), spot)
}

/// Nothing, where there is no operand.
pub(crate) fn none<V: Seen>(operands: &[V], spot: Spot) -> Result<(), ReadFault>
    ensures { Gives (λ _. tt) result (operands_read nameless spot [] (items_of (map V.shown operands.now))) }
{
    if !operands.is_empty() {
        return Err(spot.fault(FaultCode::Operands));
    }
    Ok(())
}

/// The one operand that there is.
pub(crate) fn one<A: Operand, V: Seen>(
    names: &mut KnownNames,
    scope: &Scope,
    operands: &[V],
    spot: Spot,
) -> Result<A, ReadFault>
    ensures { Gives (λ x. (A.meaning x, tt)) result
        (operands_read (said scope.now) spot (A.kind ∷ []) (items_of (map V.shown operands.now))) }
{
    if operands.len() != 1 {
        return Err(spot.fault(FaultCode::Operands));
    }
    match operands {
        [a] => {
            if !fits::<A, V>(a) {
                return Err(spot.fault(FaultCode::Operands));
            }
            read::<A, V>(names, scope, a, spot)
        }
        _ => unreachable!(),
    }
}

/// The two operands that there are.
pub(crate) fn two<A: Operand, B: Operand, V: Seen>(
    names: &mut KnownNames,
    scope: &Scope,
    operands: &[V],
    spot: Spot,
) -> Result<(A, B), ReadFault>
    ensures { Gives (λ p. (A.meaning p.0, (B.meaning p.1, tt))) result
        (operands_read (said scope.now) spot (A.kind ∷ B.kind ∷ []) (items_of (map V.shown operands.now))) }
{
    if operands.len() != 2 {
        return Err(spot.fault(FaultCode::Operands));
    }
    match operands {
        [a, b] => {
            if !(fits::<A, V>(a) && fits::<B, V>(b)) {
                return Err(spot.fault(FaultCode::Operands));
            }
            let a = read::<A, V>(names, scope, a, spot)?;
            let b = read::<B, V>(names, scope, b, spot)?;
            Ok((a, b))
        }
        _ => unreachable!(),
    }
}

/// The three operands that there are.
pub(crate) fn three<A: Operand, B: Operand, C: Operand, V: Seen>(
    names: &mut KnownNames,
    scope: &Scope,
    operands: &[V],
    spot: Spot,
) -> Result<(A, B, C), ReadFault>
    ensures { Gives (λ p. (A.meaning p.0, (B.meaning p.1, (C.meaning p.2, tt)))) result
        (operands_read (said scope.now) spot (A.kind ∷ B.kind ∷ C.kind ∷ []) (items_of (map V.shown operands.now))) }
{
    if operands.len() != 3 {
        return Err(spot.fault(FaultCode::Operands));
    }
    match operands {
        [a, b, c] => {
            if !(fits::<A, V>(a) && fits::<B, V>(b) && fits::<C, V>(c)) {
                return Err(spot.fault(FaultCode::Operands));
            }
            let a = read::<A, V>(names, scope, a, spot)?;
            let b = read::<B, V>(names, scope, b, spot)?;
            let c = read::<C, V>(names, scope, c, spot)?;
            Ok((a, b, c))
        }
        _ => unreachable!(),
    }
}

/// The four operands that there are.
pub(crate) fn four<A: Operand, B: Operand, C: Operand, D: Operand, V: Seen>(
    names: &mut KnownNames,
    scope: &Scope,
    operands: &[V],
    spot: Spot,
) -> Result<(A, B, C, D), ReadFault>
    ensures { Gives (λ p. (A.meaning p.0, (B.meaning p.1, (C.meaning p.2, (D.meaning p.3, tt))))) result
        (operands_read (said scope.now) spot (A.kind ∷ B.kind ∷ C.kind ∷ D.kind ∷ []) (items_of (map V.shown operands.now))) }
{
    if operands.len() != 4 {
        return Err(spot.fault(FaultCode::Operands));
    }
    match operands {
        [a, b, c, d] => {
            if !(fits::<A, V>(a) && fits::<B, V>(b) && fits::<C, V>(c) && fits::<D, V>(d)) {
                return Err(spot.fault(FaultCode::Operands));
            }
            let a = read::<A, V>(names, scope, a, spot)?;
            let b = read::<B, V>(names, scope, b, spot)?;
            let c = read::<C, V>(names, scope, c, spot)?;
            let d = read::<D, V>(names, scope, d, spot)?;
            Ok((a, b, c, d))
        }
        _ => unreachable!(),
    }
}

/// The five operands that there are.
pub(crate) fn five<A: Operand, B: Operand, C: Operand, D: Operand, E: Operand, V: Seen>(
    names: &mut KnownNames,
    scope: &Scope,
    operands: &[V],
    spot: Spot,
) -> Result<(A, B, C, D, E), ReadFault>
    ensures { Gives (λ p. (A.meaning p.0, (B.meaning p.1, (C.meaning p.2, (D.meaning p.3, (E.meaning p.4, tt)))))) result
        (operands_read (said scope.now) spot (A.kind ∷ B.kind ∷ C.kind ∷ D.kind ∷ E.kind ∷ []) (items_of (map V.shown operands.now))) }
{
    if operands.len() != 5 {
        return Err(spot.fault(FaultCode::Operands));
    }
    match operands {
        [a, b, c, d, e] => {
            if !(fits::<A, V>(a)
                && fits::<B, V>(b)
                && fits::<C, V>(c)
                && fits::<D, V>(d)
                && fits::<E, V>(e))
            {
                return Err(spot.fault(FaultCode::Operands));
            }
            let a = read::<A, V>(names, scope, a, spot)?;
            let b = read::<B, V>(names, scope, b, spot)?;
            let c = read::<C, V>(names, scope, c, spot)?;
            let d = read::<D, V>(names, scope, d, spot)?;
            let e = read::<E, V>(names, scope, e, spot)?;
            Ok((a, b, c, d, e))
        }
        _ => unreachable!(),
    }
}
