// The claims about the library's calls, each the contract of a function that does nothing.
ghost use Rattle.btt.specs.Host.{HostClaim};
ghost use Rattle.btt.specs.HostList.{HostListClaim};
ghost use Rattle.btt.specs.HostDemands.{HostDemands};
ghost use Rattle.btt.specs.HostReplay.{HostReplayClaim};

// Each call through bytes and a table that hold a handle is the machine's call on that handle; a refusal changes nothing; what a host is shown is so.
pub fn host()
    ensures host { HostClaim }
{}

// A host's list of calls and openings answers as the machine's does, and leaves the machine's arena, bytes that hold its handle, and its table.
pub fn host_list()
    ensures host_list { HostListClaim }
{}

// A host's list behaves as the plain row of sectors, and cut anywhere it leaves what the book says.
pub fn host_demands()
    ensures host_demands { HostDemands }
{}

// A replay of a log answers as its records do as calls and openings, and leaves their arena; one that cannot open runs none.
pub fn host_replay()
    ensures host_replay { HostReplayClaim }
{}
