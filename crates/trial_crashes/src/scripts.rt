//! The scripts whose nodes crash. Each settles where nobody does.

/// A script under a name.
#[derive(Clone, Copy)]
pub(crate) struct Named {
    pub name: &'static str,
    pub text: &'static str,
}

/// Both replicas of a fragment lack a source, and both ask: `examples/two_replicas_both_ask.borealis`.
pub(crate) const BOTH_ASK: Named = Named {
    name: "both_ask",
    text: "borealis 1\nwidth 10\ndelay 5\nend 30\nsource a 1\nlog a 1 10\nlog a 11 11\nlog a 21 12\nsource b 1\nlog b 4 20\nlog b 13 21\nfragment f 2 a b\nunion u a b\nclient c f\nbegin\nrelease a 10\nrelease b 10\ntick 1\ntick 2\ncut b f.0\ncut b f.1\nrelease a 20\nrelease b 20\ntick 3\ntick 4\nemit a 30\ntick 8\nheal b f.0\nheal b f.1\nrelease a 30\nrelease b 30\ntick 9\nsettle\n",
};

/// A node says how far its tentative output goes: `examples/passing.borealis`.
pub(crate) const PASSING: Named = Named {
    name: "passing",
    text: "borealis 2\nwidth 10\ndelay 5\nend 20\nsource a 1\nlog a 1 10\nsource b 1\nfragment f 1 a b\nunion u a b\nfragment g 1 f\nfilter k f 1\nclient c g\nbegin\nemit a 10\ntick 1\ntick 2\ntick 8\ntick 9\ntick 10\nrelease a 20\nrelease b 20\ntick 11\nsettle\n",
};

/// Three fragments, one behind another, the second of two replicas; the third counts and adds what stands in its windows.
pub(crate) const CHAIN: Named = Named {
    name: "chain",
    text: "borealis 1\nwidth 10\ndelay 5\nend 20\nsource a 1\nlog a 1 10\nlog a 4 -3\nlog a 11 11\nfragment f 1 a\nfilter k a gt c0 -9\nfragment g 2 f\nmap m f 1 add c0 1\nfragment h 1 g\naggregate n g 10 10 - count sum c0\nclient c h\nbegin\nrelease a 10\ntick 1\ntick 2\nrelease a 20\ntick 3\nsettle\n",
};

/// Three replicas of which two lack a source each, while the third one lacks none.
pub(crate) const TWO_CUTS: Named = Named {
    name: "two_cuts",
    text: "borealis 1\nwidth 10\ndelay 5\nend 20\nsource a 1\nlog a 1 10\nlog a 12 11\nsource b 1\nlog b 4 20\nlog b 15 21\nfragment f 3 a b\nunion u a b\nclient c f\nbegin\nrelease a 10\nrelease b 10\ntick 1\ntick 2\ncut b f.0\ncut a f.1\nrelease a 20\nrelease b 20\ntick 3\ntick 8\nheal b f.0\nheal a f.1\ntick 9\nsettle\n",
};
