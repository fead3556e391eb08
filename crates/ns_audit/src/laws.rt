//! What isolation promises: a namespace that has its pools and its quotas to itself runs as if it were alone on the server. Its
//! own steps are the requests in it and about its pools, workers' steps for it, and administrators' requests about its record,
//! its pools, its quotas and the access lists. Also: every state that the server reaches is valid.

ghost use Rattle.ns_audit.specs.Headline.{ApartIsFit, OtherStep, OwnStep, ReachedIsSteady, SteadyStep, StruckRun, StruckSteadyRun, ValidIsSteady};
ghost use Rattle.ns_audit.specs.Laws.{OwnStepApart, OtherStepApart, SettlesAlone, SettlesIdle};
ghost use Rattle.ns_audit.specs.Valid.{OpeningValid, ReachedIsValid, ValidStep};

/// At its end each step settles: blocked evaluations wake, releases are numbered, changed rows get an index, and events are
/// added. Take a choice of namespaces, pools and quotas such that no namespace reaches over its border. Then settling does to
/// the chosen owners what it would do if there were no others.
pub fn settling_goes_alone()
    ensures { SettlesAlone }
{}

/// If a step changed nothing, settling changes nothing: there is no release, nothing wakes, and no row gets an index.
pub fn settling_leaves_the_idle()
    ensures { SettlesIdle }
{}

/// Take a choice of owners that is fit for isolation (`IsFit`). A step of their own that is no administrator's request gets the
/// same answer from the server that holds them alone, and leads there to what they have in the new state.
pub fn own_step_apart()
    ensures { OwnStepApart }
{}

/// Take a choice of owners that is fit for isolation (`IsFit`). A step that is neither their own nor an administrator's request
/// changes nothing that they have, and no access list.
pub fn other_step_apart()
    ensures { OtherStepApart }
{}

/// A valid state has what isolation rests on (`IsSteady`): rows name pools that their namespace may use and its own quota,
/// evaluations that a worker has or that are listed as ready or blocked are open, and no counter has passed its bound.
pub fn valid_is_steady()
    ensures { ValidIsSteady }
{}

/// If a state has what isolation rests on, each step leads to a state that has it too.
pub fn steady_step()
    ensures { SteadyStep }
{}

/// So each state that the server reaches from its opening state has what isolation rests on.
pub fn reached_is_steady()
    ensures { ReachedIsSteady }
{}

/// In a state that has what isolation rests on, let a namespace have its pools and its quotas to itself. Then no namespace
/// reaches over the border of the choice that consists of this namespace with these pools and quotas.
pub fn apart_is_fit()
    ensures { ApartIsFit }
{}

/// In a state that has what isolation rests on, let a namespace have its pools and its quotas to itself. Each step of its own,
/// administrators' among them, gets the same answer, index included, from the server that holds the namespace alone, and the
/// states agree again. The exception is a put of a new name that is refused because its table is full on the whole server.
pub fn own_step()
    ensures { OwnStep }
{}

/// In a state that has what isolation rests on, let a namespace have its pools and its quotas to itself. A step that is not its
/// own, and after which it still has them to itself, changes nothing that the namespace has, and no access list.
pub fn other_step()
    ensures { OtherStep }
{}

/// Take a run from a valid state in which a namespace has its pools and its quotas to itself at every state, and no put of its
/// own is refused because its table is full on the whole server. Strike out every step that is not the namespace's own. The
/// rest is a run of the server that holds the namespace alone, with the same answers. In the end the namespace has the same,
/// and the access lists are the same.
pub fn struck_run()
    ensures { StruckRun }
{}

/// The promise of `struck_run` holds for a run from every state that has what isolation rests on, as each state that the server
/// reaches has.
pub fn struck_steady_run()
    ensures { StruckSteadyRun }
{}

/// Each step whose names, members and lists are within the limits leads from a valid state to a valid one, whatever its answer.
pub fn valid_step()
    ensures { ValidStep }
{}

/// The server's opening state is valid if its bootstrap secret is spelled as a secret must be.
pub fn opening_is_valid()
    ensures { OpeningValid }
{}

/// So each state that the server reaches from its opening state, with such a bootstrap secret and by steps within the limits,
/// is valid.
pub fn reached_is_valid()
    ensures { ReachedIsValid }
{}
