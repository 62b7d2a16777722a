//! Drawn numbers, the same for the same state.
#![tactic(auto)]

ghost use Rattle.std.specs.Prelude.{◌≡◌};
ghost use Rattle.draws.specs.Draw.{next_state, drawn};

const MULTIPLIER: u64 = 6_364_136_223_846_793_005;

const ADDEND: u64 = 1_442_695_040_888_963_407;

/// The state after a draw, and the number that is drawn, below 2^31.
pub fn draw(state: u64) -> (u64, u32)
    ensures state { result.0 ≡ next_state state }
    ensures number { result.1 ≡ drawn state }
{
    let next = state.wrapping_mul(MULTIPLIER).wrapping_add(ADDEND);
    (next, (next >> 33) as u32)
}

#[cfg(test)]
mod tests {
    use super::draw;
    use std::test::Fail;

    #[test]
    fn draws_from_nothing(rt: HostRuntime) -> Result<(), Fail> {
        assert_eq!(rt; draw(0), (1_442_695_040_888_963_407, 167_951_807));
        Ok(())
    }
}
