//! The quadratic split of a node's rectangles into two groups: PickSeeds and PickNext of Guttman,
//! "R-Trees", SIGMOD 1984, with every tie settled.
#![tactic(auto)]

mod group;
mod pick;
mod seed;
mod split;

pub use group::Groups;
pub use split::quadratic;

#[cfg(test)]
mod tests {
    use super::*;
    use sp_rect::Rect;
    use std::test::Fail;

    fn rect(corners: (i64, i64, i64, i64)) -> Result<Rect, &'static str> {
        Rect::new(corners.0, corners.1, corners.2, corners.3).map_err(|_| "no rectangle")
    }

    // Two clusters go apart; equal rectangles go to the groups in turn.
    #[test]
    fn clusters_and_equal_rectangles(rt: HostRuntime) -> Result<(), Fail> {
        let clusters = [
            rect((0, 0, 2, 2))?,
            rect((8, 8, 10, 10))?,
            rect((100, 0, 102, 2))?,
            rect((108, 8, 110, 10))?,
            rect((4, 4, 6, 6))?,
        ];
        let groups = quadratic(rt.alloc(), &clusters, 2)?;
        assert_eq!(rt; groups.first.as_slice(), [0, 1, 4].as_slice());
        assert_eq!(rt; groups.second.as_slice(), [2, 3].as_slice());
        let equal = rect((1, 1, 2, 2))?;
        let groups = quadratic(rt.alloc(), &[equal; 5], 2)?;
        assert_eq!(rt; groups.first.as_slice(), [0, 2, 4].as_slice());
        assert_eq!(rt; groups.second.as_slice(), [1, 3].as_slice());
        Ok(())
    }
}
