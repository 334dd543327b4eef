// Where the reading of a route file stands, and which kind of line is to come.
ghost use Rattle.std.specs.Prelude.{IfSome, ◌≡◌, ◌+◌, ◌≤◌};
ghost use Rattle.std.proofs.Props.{props};
ghost use Rattle.meaning.specs.Sections.{IsSection};

use meaning::Section;

// The kinds of lines: their numbers are their places in the table of record kinds.
#[derive(Clone, Copy)]
pub enum RouteLine {
    R,
    K,
    W,
}

// Where the reading stands: the routes so far, how many K lines and W lines of the last are still to come, and its last section, none before
// its first.
#[derive(Clone, Copy)]
pub struct Place {
    pub routes: u32,
    pub sections: u32,
    pub turnouts: u32,
    pub last: Option<Section>,
    pub ghost few: { routes ≤ 64 },
    pub ghost begun: { 1 ≤ sections + turnouts → 1 ≤ routes },
    pub ghost is_section: { IfSome last IsSection } by { Prim.hlevel props },
}

impl Place {
    ghost use Rattle.route_meaning.specs.Routes.{nothing_read};
    ghost use Rattle.routes.specs.Sets.{kind_of, number_of_line, progress_of};

    // Stands before the first line.
    pub fn start() -> Place
        ensures { progress_of result ≡ nothing_read }
    {
        Place {
            routes: 0,
            sections: 0,
            turnouts: 0,
            last: None,
        }
    }

    // The kind that is to come.
    pub fn next_line(self) -> RouteLine
        ensures { number_of_line result ≡ kind_of self }
    {
        if self.sections != 0 {
            RouteLine::K
        } else if self.turnouts != 0 {
            RouteLine::W
        } else {
            RouteLine::R
        }
    }
}
