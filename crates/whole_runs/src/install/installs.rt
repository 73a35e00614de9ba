//! Whole installs, each law as the clause of an empty function.

ghost use Rattle.whole_runs.specs.Install.Installs.{InstallsActOn, InstallsAreKnown, NoInstallDiffers};

/// What a whole install needs beside the relation of a page is known of it.
pub fn installs_are_known()
    ensures { InstallsAreKnown }
{}

/// Each whole install from a cluster of a run keeps the relation of each page.
pub fn installs_act_on()
    ensures { InstallsActOn }
{}

/// No page differs that is read for such an install.
pub fn no_install_differs()
    ensures { NoInstallDiffers }
{}
