// One end of a band against the lanes of a group, plane by plane, the highest first.
ghost use Rattle.std.specs.Prelude.{◌≡◌, [], ◌≤◌, ◌<◌};
ghost use Rattle.vertical_compare.specs.Ends.{end_at, stepped};

// How the 64 lanes stand to one end of a band by the planes taken so far: below it, and not yet decided.
#[derive(Clone, Copy)]
pub struct End {
    pub constant: u64,
    pub less: u64,
    pub undecided: u64,
}

// A constant outside 0 to 2^w - 1 is decided before the first plane: no lane is undecided against it.
pub fn start(constant: i64, w: usize) -> End
    requires { w ≤ 32 }
    ensures { result ≡ end_at 64 [] 0 w constant }
{
    if constant < 0 {
        return End {
            constant: 0,
            less: 0,
            undecided: 0,
        };
    }
    let constant = constant as u64;
    if constant >> w == 0 {
        End {
            constant,
            less: 0,
            undecided: u64::MAX,
        }
    } else {
        End {
            constant,
            less: u64::MAX,
            undecided: 0,
        }
    }
}

// One plane more; `left` planes are still to come after it.
pub fn step(end: End, plane: u64, left: usize) -> End
    requires { left < 32 }
    ensures { result ≡ stepped 64 end plane left }
{
    if (end.constant >> left) % 2 == 1 {
        End {
            less: end.less | (end.undecided & !plane),
            undecided: end.undecided & plane,
            ..end
        }
    } else {
        End {
            undecided: end.undecided & !plane,
            ..end
        }
    }
}
