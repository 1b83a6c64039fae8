//! What all pairs of a run share.

ghost use Rattle.std.specs.Prelude.{◌≡◌, ◌++◌, ◌∷◌, [], IfOk, OnErr, OnOk, option_copied};
ghost use Rattle.gate_model.specs.Setup.{IsInForm, route_to, site_of};

use std::alloc::Global;
use std::marker::Model;
use wire_base::{ByteText, Memory};

/// An exchange to which clients may publish, and the address that it stands for.
#[derive(Debug, Drop)]
pub struct Route {
    pub exchange: ByteText,
    pub address: ByteText,
}

/// The exchanges to which clients may publish, besides the default one. Contracts see a list.
#[derive(Drop)]
pub struct Routes {
    items: Vec<Route>,
}

impl Model for Routes {
    ghost use Rattle.std.specs.Prelude.{List};
    ghost use Rattle.gate_model.specs.declared.setup.Route.{Route};

    ghost Value = { List Route };

    ghost view = { λ a. a.items.items };
}

impl Routes {
    /// No exchange. It takes the allocator that later growth uses, and no memory.
    pub fn empty(alloc: Global) -> Routes
        ensures { result ≡ [] }
    {
        Routes {
            items: Vec::new(alloc),
        }
    }

    /// One more exchange.
    pub fn push(&mut self, route: Route) -> Result<(), Memory>
        ensures ok { OnOk result (self.new ≡ self.old ++ route ∷ []) }
        ensures err { OnErr result (self.new ≡ self.old) }
    {
        self.items.push(route)?;
        Ok(())
    }

    /// The address that an exchange stands for; `None` where it isn't known.
    pub fn address(&self, exchange: &[u8]) -> Option<&ByteText>
        ensures { option_copied result ≡ route_to self.now exchange.now }
    {
        match self
            .items
            .iter()
            .find(|route| route.exchange.as_slice() == exchange)
        {
            Some(route) => Some(&route.address),
            None => None,
        }
    }

    /// The exchanges, in the order in which they were named.
    pub fn as_slice(&self) -> &[Route]
        ensures { result.now ≡ self.now }
    {
        self.items.as_slice()
    }

    /// The same list once more.
    pub fn copy(&self, alloc: Global) -> Result<Routes, Memory>
        ensures { IfOk result (λ routes. routes ≡ self.now) }
    {
        let mut routes = Routes::empty(alloc);
        for route in self.items.as_slice() {
            routes.push(Route {
                exchange: route.exchange.copy(alloc)?,
                address: route.address.copy(alloc)?,
            })?;
        }
        Ok(routes)
    }
}

/// What a client may open and publish to.
#[derive(Drop)]
pub struct Site {
    pub vhost: ByteText,
    pub routes: Routes,
}

impl Model for Site {
    ghost use Rattle.gate_model.specs.Setup.{SiteText};

    ghost Value = { SiteText };

    ghost view = { λ a. record { vhost = a.vhost; routes = a.routes } };
}

/// What all pairs of a run share: which virtual host clients may open, the exchanges that they may
/// publish to, and what containers are told. Contracts see its texts.
#[derive(Drop)]
pub struct Setup {
    name: ByteText,
    host: Option<ByteText>,
    vhost: ByteText,
    routes: Routes,
}

impl Model for Setup {
    ghost use Rattle.gate_model.specs.Setup.{IsInForm, SetupText};

    ghost Value = { SetupText };

    ghost view = { λ a. record {
      name = a.name;
      host = a.host;
      vhost = a.vhost;
      routes = a.routes;
    } };

    ghost invariant = { λ a. IsInForm (record {
      name = a.name;
      host = a.host;
      vhost = a.vhost;
      routes = a.routes;
    }) };
}

impl Setup {
    /// The name by which containers know the gateway, which is ASCII and has at most 100 bytes; the
    /// host that they are asked for, which is UTF-8 and has at most 200 bytes; the virtual host,
    /// which has at most 255 bytes; and the exchanges, each named once, whose names and addresses
    /// have 1 to 255 bytes.
    pub fn new(name: ByteText, host: Option<ByteText>, vhost: ByteText, routes: Routes) -> Setup
        requires { IsInForm (record { name = name; host = host; vhost = vhost; routes = routes }) }
        ensures { result ≡ record { name = name; host = host; vhost = vhost; routes = routes } }
    {
        Setup {
            name,
            host,
            vhost,
            routes,
        }
    }

    /// The name by which containers know the gateway.
    pub fn name(&self) -> &ByteText
        ensures name { result.now ≡ self.now.name }
        ensures form { IsInForm self.now }
    {
        &self.name
    }

    /// The host that containers are asked for.
    pub fn host(&self) -> &Option<ByteText>
        ensures host { result.now ≡ self.now.host }
        ensures form { IsInForm self.now }
    {
        &self.host
    }

    /// The virtual host that clients may open.
    pub fn vhost(&self) -> &ByteText
        ensures vhost { result.now ≡ self.now.vhost }
        ensures form { IsInForm self.now }
    {
        &self.vhost
    }

    /// The exchanges that clients may publish to, besides the default one.
    pub fn routes(&self) -> &Routes
        ensures routes { result.now ≡ self.now.routes }
        ensures form { IsInForm self.now }
    {
        &self.routes
    }

    /// What a client may open and publish to, copied for a pair.
    pub fn site(&self, alloc: Global) -> Result<Site, Memory>
        ensures { IfOk result (λ site. site ≡ site_of self.now) }
    {
        Ok(Site {
            vhost: self.vhost.copy(alloc)?,
            routes: self.routes.copy(alloc)?,
        })
    }
}
