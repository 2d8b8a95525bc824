// The edge of a factor: the step that all its repeats take together (contract 3.12).
ghost use Rattle.std.specs.Prelude.{◌≡◌, pos, ◌+ℤ◌, ◌*ℤ◌, ◌≤◌};
ghost use Rattle.chart.specs.Limits.{longest};
ghost use Rattle.convexity.specs.Frame.{frame_of};
ghost use Rattle.dents.specs.parts.Edge.{Steps, EdgeOf};

#[derive(Clone, Copy)]
pub(crate) struct Edge {
    pub(crate) dx: i16,
    pub(crate) dy: i16,
}

// One coordinate: `run` steps of the earlier letter and `rise` steps of the later.
fn steps(run: u16, earlier: i16, rise: u16, later: i16) -> i16
    requires { Steps run earlier rise later }
    ensures { result ≡ pos run *ℤ earlier +ℤ pos rise *ℤ later }
{
    run as i16 * earlier + rise as i16 * later
}

// The edge of `run` earlier and `rise` later letters of piece k, counted from 0.
pub(crate) fn edge_of(k: usize, run: u16, rise: u16) -> Edge
    requires { (run ≤ longest) × (rise ≤ longest) }
    ensures { EdgeOf (frame_of k) run rise result }
{
    let p = pieces::pair_at(k);
    Edge {
        dx: steps(run, p.earlier_cols, rise, p.later_cols),
        dy: steps(run, p.earlier_rows, rise, p.later_rows),
    }
}
