ghost use Rattle.std.specs.Prelude.{◌≡◌, ℕ, ◌+◌, ◌*◌, ◌<◌, ◌≤◌, ◌^◌, [], length, IfOk, IfErr, IfSome, IfNone, OnOk, OnErr};
ghost use Rattle.hp_mempool.specs.Asked.{IsAcceptable, IsFirstFault, asked_of, stride_of};
ghost use Rattle.hp_mempool.specs.Objects.{AreApart, IsLaid, LieIn, addr_of};
ghost use Rattle.hp_mempool.specs.PassView.{Gets, IsOf, IsOut, IsWhole, Puts, WasEmpty, after_flush, after_halving, first_pass, new_half, with_part_of};
ghost use Rattle.hp_mempool.specs.Views.{once_below, times};

use crate::fault::PoolFault;
use crate::filling::filled;
use crate::judging::{OBJECT_HEADER, judge};
use crate::numbers::{drop_oldest, get_number, put_number, put_numbers, refill};
use crate::obj::Obj;
use crate::pool_pass::PoolPass;
use crate::roles::{Gathers, Halves, Queue};
use hp_zone::Zone;
use std::alloc::{AllocError, Global};
use std::marker::Model;
use std::sync::Wait;

/// Objects of one size in a memzone, which workers share. Those that no worker has stand in a queue, by their numbers. After rte_mempool.
#[derive(Drop)]
pub struct Pool {
    queue: Queue,
    size: u64,
    // The address of the data of object 0, and how far the next object is.
    first: u64,
    stride: u64,
    // Room for the numbers that `close` gives.
    numbers: Vec<u32>,
}

impl Model for Pool {
    ghost use Rattle.hp_mempool.specs.PassView.{PoolView};

    ghost Value = { PoolView };

    ghost use Rattle.hp_mempool.specs.PoolInside.{pool_view, IsPool};

    ghost view = { pool_view };

    ghost invariant = { IsPool };
}

impl Pool {
    /// A pool of `n` objects of `size` bytes in a zone, all in the queue by rising number, and its first pass, whose cache has places for
    /// `cache` objects. The first fault in the order of `PoolFault` refuses it. After rte_mempool_create.
    pub fn new(
        alloc: Global,
        zone: &Zone,
        n: u32,
        size: u64,
        cache: u32,
    ) -> Result<(Pool, PoolPass), PoolFault>
        requires { zone.now.addr + zone.now.len ≤ 2 ^ 63 }
        ensures made { IfOk result (λ made. IsLaid made.0 zone.now.addr n size (stride_of size)) }
        ensures pass { IfOk result (λ made. made.1 ≡ first_pass made.0 cache) }

        // Each object lies in the zone, and no two share a byte.
        ensures within { IfOk result (λ made. LieIn made.0 zone.now.addr zone.now.len) }
        ensures apart { IfOk result (λ made. AreApart made.0) }

        ensures acceptable { OnOk result (IsAcceptable (asked_of n size cache zone.now.len)) }
        ensures refused { IfErr result (IsFirstFault (asked_of n size cache zone.now.len)) }
    {
        let stride = judge(zone.len, n, size, cache)?;
        match made(alloc, zone.addr, n, size, stride, cache) {
            Ok(made) => Ok(made),
            Err(_) => Err(PoolFault::OutOfMemory),
        }
    }

    /// A new pass with an empty cache, which gets half of this pass's part of the pool. Own.
    pub fn split(&self, alloc: Global, pass: &mut PoolPass) -> Result<PoolPass, AllocError>
        requires pool { IsOf pass.old self.now }
        ensures new { IfOk result (λ new. new ≡ new_half pass.old) }
        ensures left { OnOk result (pass.new ≡ after_halving pass.old) }
        ensures err { OnErr result (pass.new ≡ pass.old) }
    {
        let cache = Vec::with_capacity(alloc, pass.places as usize)?;
        let token = self.queue.another::<Halves>(&mut pass.token);
        Ok(PoolPass {
            places: pass.places,
            cache,
            token,
        })
    }

    /// Takes in a pass that has no object, and its part of the pool. Own.
    pub fn join(&self, pass: &mut PoolPass, other: PoolPass)
        requires pool { IsOf pass.old self.now }
        requires other { IsOf other self.now }
        requires none { other.has ≡ [] }
        ensures { pass.new ≡ with_part_of other pass.old }
    {
        self.queue.absorb::<Gathers>(&mut pass.token, other.token);
    }

    /// Gets an object: the last one of the cache; with an empty cache the first one of the queue, and then others of it into the cache, for
    /// half of its places. None only where both were empty. After rte_mempool_get.
    pub fn get<R: Wait>(&self, rt: &R, pass: &mut PoolPass) -> Option<Obj>
        requires pool { IsOf pass.old self.now }
        ensures got { IfSome result (λ obj. Gets pass.old pass.new obj.number) }
        ensures addr { IfSome result (λ obj. obj.addr ≡ addr_of self.now obj.number) }
        ensures same { pass.new ≡ record pass.old { cached = pass.new.cached; has = pass.new.has } }
        ensures none { IfNone result ((pass.new ≡ pass.old) × (pass.old.cached ≡ []) × WasEmpty pass.old) }
    {
        let number = self.next_number(rt, pass)?;
        Some(self.obj(number))
    }

    // The number of the object that is got.
    fn next_number<R: Wait>(&self, rt: &R, pass: &mut PoolPass) -> Option<u32>
        requires pool { IsOf pass.old self.now }
        ensures got { IfSome result (Gets pass.old pass.new) }
        ensures none { IfNone result ((pass.new ≡ pass.old) × (pass.old.cached ≡ []) × WasEmpty pass.old) }
    {
        if pass.cache.is_empty() {
            return self.queued(rt, pass);
        }
        pass.cache.pop()
    }

    // Gets the first number of the queue, and fills half of an empty cache.
    fn queued<R: Wait>(&self, rt: &R, pass: &mut PoolPass) -> Option<u32>
        requires pool { IsOf pass.old self.now }
        requires empty { pass.old.cached ≡ [] }
        ensures got { IfSome result (Gets pass.old pass.new) }
        ensures none { IfNone result ((pass.new ≡ pass.old) × WasEmpty pass.old) }
    {
        let number = get_number(rt, &self.queue, &mut pass.token)?;
        let half = pass.places as usize / 2;
        refill(rt, &self.queue, &mut pass.token, &mut pass.cache, half);
        Some(number)
    }

    // The object of a number.
    fn obj(&self, number: u32) -> Obj
        requires { number < self.now.count }
        ensures number { result.number ≡ number }
        ensures addr { result.addr ≡ addr_of self.now number }
    {
        Obj {
            number,
            addr: self.first + u64::from(number) * self.stride,
        }
    }

    /// Puts an object that this pass got: into the cache; where that is full, its oldest half goes to the queue, and then this object. It
    /// is never refused. After rte_mempool_put.
    pub fn put<R: Wait>(&self, rt: &R, pass: &mut PoolPass, obj: Obj)
        requires pool { IsOf pass.old self.now }
        requires out { IsOut pass.old obj.number }
        ensures { Puts pass.old pass.new obj.number }
    {
        if pass.cache.len() < pass.places as usize {
            pass.cache.push_reserved(obj.number);
        } else {
            let half = pass.places as usize / 2;
            put_numbers(rt, &self.queue, &mut pass.token, &pass.cache[..half]);
            drop_oldest(&mut pass.cache, half);
            put_number(rt, &self.queue, &mut pass.token, obj.number);
        }
    }

    /// The cache goes to the queue. After rte_mempool_cache_flush.
    pub fn flush<R: Wait>(&self, rt: &R, pass: &mut PoolPass)
        requires pool { IsOf pass.old self.now }
        ensures { pass.new ≡ after_flush pass.old }
    {
        put_numbers(rt, &self.queue, &mut pass.token, &pass.cache);
        pass.cache.clear();
    }

    /// Ends the pool by its only pass, which has no object, and gives the numbers of all objects in the order of the queue. After
    /// rte_mempool_free.
    pub fn close<R: Wait>(self, rt: &R, pass: PoolPass) -> Vec<u32>
        requires pool { IsOf pass self }
        requires only { IsWhole pass }
        requires none { pass.has ≡ [] }
        ensures each { (number : ℕ) → times number result.items ≡ once_below self.count number }
        ensures count { length result.items ≡ self.count }
    {
        let Pool {
            queue,
            mut numbers,
            ..
        } = self;
        let PoolPass { mut token, .. } = pass;
        let all = queue.capacity();
        refill(rt, &queue, &mut token, &mut numbers, all);
        numbers
    }
}

// A pool and its first pass.
fn made(
    alloc: Global,
    addr: u64,
    n: u32,
    size: u64,
    stride: u64,
    cache: u32,
) -> Result<(Pool, PoolPass), AllocError>
    requires some { 0 < n }
    requires fits { addr + n * stride ≤ 2 ^ 63 }
    ensures made { IfOk result (λ made. IsLaid made.0 addr n size stride) }
    ensures pass { IfOk result (λ made. made.1 ≡ first_pass made.0 cache) }
{
    let places = Vec::with_capacity(alloc, cache as usize)?;
    let numbers = Vec::with_capacity(alloc, n as usize)?;
    let (queue, token) = filled(alloc, n)?;
    let pool = Pool {
        queue,
        size,
        first: addr + OBJECT_HEADER,
        stride,
        numbers,
    };
    let pass = PoolPass {
        places: cache,
        cache: places,
        token,
    };
    Ok((pool, pass))
}
