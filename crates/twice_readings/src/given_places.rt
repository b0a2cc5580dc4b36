ghost use Rattle.twice_readings.specs.GivenPlaces.{AcceptedGivensStand, ConfiguredGivensStand};

use reading_laws::given_places_law;

/// Each name of which the configuration of a job tells that it gives something for it, or puts it in place of another, stands in the text of the configuration,
/// whose file is named behind those of the modules: once all texts of a specification are read, and so of each accepted job.
pub fn job_places_law()
    ensures configured { ConfiguredGivensStand }
    ensures accepted { AcceptedGivensStand }
{
    given_places_law();
}
